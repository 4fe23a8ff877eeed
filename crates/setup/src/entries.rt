// The entries that the applications need.
ghost use Rattle.std.specs.Prelude.{◌≡◌, ◌≤◌, true, length, All, option_to_list};
ghost use Rattle.congruence.specs.Entries.{entry_for};
ghost use Rattle.engine.specs.Limits.{max_terms};
ghost use Rattle.engine.specs.Meaning.{numbers_in};
ghost use Rattle.engine.specs.Terms.{arguments_below};
ghost use Rattle.model.specs.PickedEntries.{entries_once};

use arrayvec::ArrayVec;
use congruence::entry::{Arguments, Entry};
use engine::limits::MAX_TERMS;
use sheet::term::{Form, Term};

// Each entry that an application needs, once, in the order of the first terms that need them.
pub(crate) fn list_entries(terms: &[Term], numbers: &[i64]) -> ArrayVec<Entry, MAX_TERMS>
    requires few { length terms.now ≤ max_terms }
    requires each { length numbers.now ≡ length terms.now }
    requires arguments { All (λ t. arguments_below (length terms.now) t.form ≡ true) terms.now }
    ensures { result.items ≡ entries_once terms.now (numbers_in numbers.now) }
{
    let mut entries = ArrayVec::new();
    for (index, term) in terms.iter().enumerate() {
        if let Some(entry) = entry_for(term.form, numbers[index], numbers)
            && !entries.as_slice().contains(&entry)
        {
            entries.push(entry);
        }
    }
    entries
}

// The entry that a term of this form needs, if it is an application.
fn entry_for(form: Form, answer: i64, numbers: &[i64]) -> Option<Entry>
    requires { arguments_below (length numbers.now) form ≡ true }
    ensures { option_to_list result ≡ entry_for (numbers_in numbers.now) answer form }
{
    match form {
        Form::Name => None,
        Form::One { table, argument } => Some(Entry {
            table,
            arguments: Arguments::Unary(numbers[argument as usize]),
            answer,
        }),
        Form::Two {
            table,
            first,
            second,
        } => Some(Entry {
            table,
            arguments: Arguments::Binary(numbers[first as usize], numbers[second as usize]),
            answer,
        }),
    }
}
