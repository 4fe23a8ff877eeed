// A shown result with its set-up.
ghost use Rattle.std.specs.Prelude.{◌≡◌, ℤ, MatchResult, length, option_copied};
ghost use Rattle.bench.specs.Benches.{found, rows_at, rows_shown, terms_at, terms_shown};
ghost use Rattle.bench.specs.Letters.{result_letter};
ghost use Rattle.model.specs.Recounting.{Recounted, recount};
ghost use Rattle.search.specs.Unmuted.{standing_state};
ghost use Rattle.table.specs.TableState.{state_in};
ghost use Rattle.setup.specs.Solutions.{SetUpFound, SetUpOnly, SetUpRight, SetUpThere};
ghost use Rattle.setup.specs.Reading.{buffer_with, copied, entries_written, number_in, recounted, with_front};
ghost use Rattle.sheet.specs.Causes.{in_layer};

use crate::recount::recount_term;
use crate::set_up::SetUp;
use bench::bench::Bench;
use bench::shown::{RESULT, Shown};
use congruence::entry::Entry;
use engine::dating::Dating;
use engine::engine::Engine;
use search::verdict::Verdict;
use sheet::fault::{Cause, Fault};
use sheet::layer::InLayer;
use table::table::Table;

// The result of a bench whose first engine is the table engine and whose second engine dates, and the set-up where an arrangement was found.
#[derive(Drop)]
pub struct Solved<S: Dating> {
    pub(crate) shown: Shown<Table, S>,
    pub(crate) set_up: Option<SetUp>,
    ghost picked: { ∥ SetUpFound (S.rule (S.setting shown.second)) S.counts (S.picks (S.setting shown.second)) (terms_shown shown) (rows_shown shown) (found shown) set_up ∥₁ },
}

impl<S: Dating> Solved<S> {
    ghost use Rattle.setup.specs.Parts.{found_in, rows_in, set_up_in, shown_in, terms_in};

    // The result with its set-up.
    pub fn of(shown: Shown<Table, S>) -> Solved<S>
        ensures shown { shown_in result ≡ shown }
        ensures picks { let made_with = S.setting shown.second in
            SetUpFound (S.rule made_with) S.counts (S.picks made_with) (terms_shown shown) (rows_shown shown) (found shown) (set_up_in result) }
        ensures only { let made_with = S.setting shown.second in
            SetUpOnly (S.rule made_with) S.counts (S.picks made_with) (terms_shown shown) (rows_shown shown) (found shown) (set_up_in result) }
        ensures right { let made_with = S.setting shown.second in
            SetUpRight (S.rule made_with) S.counts (S.picks made_with) (terms_shown shown) (rows_shown shown) (found shown) (set_up_in result) }
    {
        let set_up = find_set_up(&shown);
        Solved { shown, set_up }
    }

    // The result itself.
    pub fn shown(&self) -> &Shown<Table, S>
        ensures { result.now ≡ shown_in self.now }
    {
        &self.shown
    }

    // The set-up, where an arrangement was found.
    pub fn set_up(&self) -> Option<&SetUp>
        ensures held { option_copied result ≡ set_up_in self.now }
        ensures there { SetUpThere (found_in self.now) (set_up_in self.now) }
    {
        self.set_up.as_ref()
    }

    // The number of a term.
    pub fn number(&self, term: u8) -> Result<i64, Fault>
        ensures { result ≡ in_layer result_letter (number_in (set_up_in self.now) term) }
    {
        match &self.set_up {
            Some(set_up) => set_up
                .numbers()
                .get(term as usize)
                .copied()
                .ok_or(Cause::NotInResult),
            None => Err(Cause::OtherVerdict),
        }
        .in_layer(RESULT)
    }

    // Writes the entries to the front of the buffer, and answers how many there are.
    pub fn entries(&self, buffer: &mut [Entry]) -> Result<usize, Fault>
        ensures answers { result ≡ in_layer result_letter (entries_written (set_up_in self.now) (length buffer.old)) }
        ensures buffer { buffer.new ≡ buffer_with (set_up_in self.now) buffer.old }
    {
        match &self.set_up {
            Some(set_up) => copy_entries(set_up.entries(), buffer),
            None => Err(Cause::OtherVerdict),
        }
        .in_layer(RESULT)
    }

    // A term's number, from a number for each name but zero, in the order of the terms, and a list of entries. It works on what the caller brings, at
    // a clash too.
    pub fn recount(&self, names: &[i64], entries: &[Entry], term: u8) -> Result<i64, Fault>
        ensures answers { result ≡ in_layer result_letter (recounted (recount (terms_in self.now) names.now entries.now term)) }
        ensures exact { MatchResult result
            (λ n. Recounted (terms_in self.now) names.now entries.now term n)
            (λ fault. (n : ℤ) → Recounted (terms_in self.now) names.now entries.now term n → ⊥) }
    {
        recount_term(self.shown.terms(), names, entries, term)
            .ok_or(Cause::NotInResult)
            .in_layer(RESULT)
    }

    // Gives the bench back with the same rows.
    pub fn reopen(self) -> Bench<Table, S>
        ensures terms { terms_at result ≡ terms_in self }
        ensures rows { rows_at result ≡ rows_in self }
        ensures by_first { state_in result.first ≡ standing_state (terms_in self) (rows_in self) }
        ensures by_second { S.state result.second ≡ standing_state (terms_in self) (rows_in self) }
        ensures keeps_second { S.setting result.second ≡ S.setting (shown_in self).second }
    {
        let Solved { shown, set_up: _ } = self;
        shown.reopen()
    }
}

// The set-up for the arrangement that was found, if one was: by the dates of the second engine, and by the groups of terms that the first knows to be
// equal.
fn find_set_up<S: Dating>(shown: &Shown<Table, S>) -> Option<SetUp>
    ensures { let made_with = S.setting shown.now.second in
        SetUpFound (S.rule made_with) S.counts (S.picks made_with) (terms_shown shown.now) (rows_shown shown.now) (found shown.now) result }
{
    if let Verdict::Clash { .. } = shown.verdict() {
        return None;
    }
    let Ok(dates) = shown.second().dates() else {
        // It does not come to this: every seat is placed, and the arrangement is allowed.
        return None;
    };
    let groups = shown.first().classes();
    Some(SetUp::assign(
        shown.terms(),
        shown.seats(),
        dates.as_slice(),
        groups.as_slice(),
    ))
}

// Copies the entries to the front of the buffer, if there is room for them.
fn copy_entries(entries: &[Entry], buffer: &mut [Entry]) -> Result<usize, Cause>
    ensures answers { result ≡ copied (length entries.now) (length buffer.old) }
    ensures buffer { buffer.new ≡ with_front entries.now buffer.old }
{
    let count = entries.len();
    if buffer.len() < count {
        return Err(Cause::BufferTooShort);
    }
    buffer[..count].copy_from_slice(entries);
    Ok(count)
}
