// A set-up.
ghost use Rattle.std.specs.Prelude.{◌≡◌, ◌≤◌, true, length};
ghost use Rattle.engine.specs.Fitting.{all_terms_fit};
ghost use Rattle.engine.specs.Limits.{max_terms};
ghost use Rattle.engine.specs.Meaning.{numbers_in};
ghost use Rattle.engine.specs.Terms.{seats_of};
ghost use Rattle.model.specs.PickedEntries.{entries_once};
ghost use Rattle.model.specs.Numbering.{numbers_of};
ghost use Rattle.setup.specs.Groups.{DatesAtMost, NamedByLeast};

use crate::entries::list_entries;
use crate::numbers::number_terms;
use arrayvec::ArrayVec;
use congruence::entry::Entry;
use engine::limits::MAX_TERMS;
use sheet::term::Term;

// A number for each term, and the entries that the tables need for them.
#[derive(Debug, Drop, PartialEq, Eq)]
pub struct SetUp {
    pub(crate) numbers: ArrayVec<i64, MAX_TERMS>,
    pub(crate) entries: ArrayVec<Entry, MAX_TERMS>,
}

impl SetUp {
    ghost use Rattle.setup.specs.Parts.{entries_in_set_up, numbers_in_set_up};

    // The set-up for these dates of the seats and these groups of the terms.
    #[tactic(auto, using(engine::proofs::Fitting::arguments_are_terms, engine::proofs::Seats::seats_within))]
    pub(crate) fn assign(terms: &[Term], seats: &[u8], dates: &[i64], groups: &[u8]) -> SetUp
        requires few { length terms.now ≤ max_terms }
        requires fit { all_terms_fit terms.now ≡ true }
        requires seats { seats.now ≡ seats_of terms.now }
        requires each { length groups.now ≡ length terms.now }
        requires named { NamedByLeast groups.now }
        requires within { DatesAtMost dates.now }
        ensures numbers { result.numbers.items ≡ numbers_of seats.now dates.now groups.now }
        ensures entries { result.entries.items ≡ entries_once terms.now (numbers_in result.numbers.items) }
    {
        let numbers = number_terms(seats, dates, groups);
        let entries = list_entries(terms, numbers.as_slice());
        SetUp { numbers, entries }
    }

    // The number of each term, zero's first.
    pub fn numbers(&self) -> &[i64]
        ensures { result.now ≡ numbers_in_set_up self.now }
    {
        self.numbers.as_slice()
    }

    // The entries, in the order of the first terms that need them.
    pub fn entries(&self) -> &[Entry]
        ensures { result.now ≡ entries_in_set_up self.now }
    {
        self.entries.as_slice()
    }
}
