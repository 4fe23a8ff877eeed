// Answers of a layer.
ghost use Rattle.std.specs.Prelude.{◌≡◌, ℕ, Result};
ghost use Rattle.sheet.specs.Causes.{in_layer};
ghost use Rattle.sheet.specs.declared.fault.Fault.{Fault};

use crate::fault::{Cause, Fault};

// A result whose cause becomes a fault with the letter of the layer that answers.
pub trait InLayer<T> {
    ghost layered: { ℕ → Self → Result T Fault };

    fn in_layer(self, letter: char) -> Result<T, Fault>
        ensures { result ≡ layered letter self };
}

impl<T> InLayer<T> for Result<T, Cause> {
    ghost layered = { λ letter r. in_layer letter r };

    fn in_layer(self, letter: char) -> Result<T, Fault> {
        self.map_err(|cause| cause.in_layer(letter))
    }
}
