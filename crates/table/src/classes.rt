// Classes of terms.
ghost use Rattle.std.specs.Prelude.{◌≡◌, ◌<◌};
ghost use Rattle.congruence.specs.Classes.{rename_class, merge, singletons};
ghost use Rattle.congruence.specs.Closure.{in_one_class};
ghost use Rattle.engine.specs.Limits.{max_terms};

use engine::limits::MAX_TERMS;
use std::array;

// For each term, by its index, the least term of its class. A place past the last term is a class by itself.
#[derive(Clone, Copy, Debug, PartialEq, Eq)]
pub(crate) struct Classes {
    pub(crate) least: [u8; MAX_TERMS],
}

impl Classes {
    // Each term by itself.
    pub(crate) fn singletons() -> Classes
        ensures { result.least ≡ singletons max_terms }
    {
        Classes {
            least: array::from_fn(|term| term as u8),
        }
    }

    // Whether two terms are in one class.
    pub(crate) fn in_one_class(&self, a: u8, b: u8) -> bool
        requires left { a < max_terms }
        requires right { b < max_terms }
        ensures { result ≡ in_one_class self.now.least a b }
    {
        self.least[a as usize] == self.least[b as usize]
    }

    // Makes the classes of two terms one.
    pub(crate) fn merge(&mut self, a: u8, b: u8)
        requires left { a < max_terms }
        requires right { b < max_terms }
        ensures { self.new.least ≡ merge a b self.old.least }
    {
        let first = self.least[a as usize];
        let second = self.least[b as usize];
        if first != second {
            rename_class(&mut self.least, first.max(second), first.min(second));
        }
    }
}

// Makes the class whose least term is `high` a part of the one whose least term is `low`.
fn rename_class(least: &mut [u8; MAX_TERMS], high: u8, low: u8)
    ensures { least.new ≡ rename_class high low least.old }
{
    for class in least.iter_mut() {
        if *class == high {
            *class = low;
        }
    }
}
