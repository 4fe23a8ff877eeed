// What an engine holds, with the calls that all engines share.
ghost use Rattle.std.specs.Prelude.{◌≡◌, ℕ, ◌<◌, ◌≤◌, true, [], ◌∷◌, ◌++◌, IfOk, if◌then◌else◌, vec_len, vec_capacity};
ghost use Rattle.engine.specs.Arrangements.{is_valid};
ghost use Rattle.engine.specs.Calls.{codes_refusal, on_lift, on_mark, on_note_row, on_note_term, on_place, on_strike};
ghost use Rattle.engine.specs.Fitting.{all_rows_fit, all_terms_fit};
ghost use Rattle.engine.specs.Limits.{max_rows, max_seats, max_terms};
ghost use Rattle.engine.specs.Refusals.{answer_of};
ghost use Rattle.engine.specs.States.{new_state};
ghost use Rattle.engine.specs.Terms.{seats_of};
ghost use Rattle.sheet.specs.Terms.{is_dated};

use crate::arrangement::{count_blocks, rank_seats};
use crate::limits::{MAX_ROWS, MAX_SEATS, MAX_TERMS};
use crate::noted::Noted;
use crate::placed::{Placed, place_seats};
use crate::refusals::{check_row, check_term};
use crate::terms::ZERO;
use arrayvec::ArrayVec;
use sheet::fault::Cause;
use sheet::row::Row;
use sheet::term::Term;
use std::alloc::{AllocError, Global};

// The terms and rows noted and the codes placed, with the effects and refusals that all engines share.
// All room is reserved when it is made, so that no later call can fail for want of memory.
#[derive(Drop)]
pub struct Holdings {
    pub(crate) terms: Vec<Term>,
    // the indices of the dated terms, listed so that no call has to look for them; `seats_listed` says that they are just those
    pub(crate) seats: Vec<u8>,
    pub(crate) rows: Vec<Noted>,
    // the codes of the seats that are placed; a list of its own, since seats are there before they are placed
    pub(crate) codes: Vec<u8>,
    ghost term_room: { max_terms ≤ vec_capacity terms },
    ghost seat_room: { max_seats ≤ vec_capacity seats },
    ghost row_room: { max_rows ≤ vec_capacity rows },
    ghost code_room: { max_seats ≤ vec_capacity codes },
    ghost few_terms: { vec_len terms ≤ max_terms },
    ghost few_seats: { vec_len seats ≤ max_seats },
    ghost few_rows: { vec_len rows ≤ max_rows },
    ghost terms_fit: { all_terms_fit terms.items ≡ true },
    ghost seats_listed: { seats.items ≡ seats_of terms.items },
    ghost rows_fit: { all_rows_fit terms.items rows.items ≡ true },
    ghost codes_fit: { vec_len codes ≤ vec_len seats },
    ghost codes_valid: { is_valid 0 codes.items ≡ true },
}

impl Holdings {
    ghost use Rattle.engine.specs.Holding.{state_of};
    ghost use Rattle.engine.specs.Placing.{placed_seats};

    // Zero, no row and no code.
    pub fn new(heap: Global) -> Result<Holdings, AllocError>
        ensures { IfOk result (λ h. state_of h ≡ new_state) }
    {
        let mut terms = Vec::with_capacity(heap, MAX_TERMS)?;
        let mut seats = Vec::with_capacity(heap, MAX_SEATS)?;
        let rows = Vec::with_capacity(heap, MAX_ROWS)?;
        let codes = Vec::with_capacity(heap, MAX_SEATS)?;
        terms.push_reserved(ZERO);
        seats.push_reserved(0);
        Ok(Holdings {
            terms,
            seats,
            rows,
            codes,
        })
    }

    pub fn terms(&self) -> &[Term]
        ensures { result.now ≡ (state_of self.now).terms }
    {
        self.terms.as_slice()
    }

    // The indices of the dated terms.
    pub fn seats(&self) -> &[u8]
        ensures { result.now ≡ seats_of (state_of self.now).terms }
    {
        self.seats.as_slice()
    }

    pub fn rows(&self) -> &[Noted]
        ensures { result.now ≡ (state_of self.now).rows }
    {
        self.rows.as_slice()
    }

    pub fn codes(&self) -> &[u8]
        ensures { result.now ≡ (state_of self.now).codes }
    {
        self.codes.as_slice()
    }

    // Each seat that has a code, by its term and its rank.
    #[tactic(auto, using(crate::proofs::Placing::placed_ranks))]
    pub fn placed_seats(&self) -> ArrayVec<Placed, MAX_SEATS>
        ensures { result.items ≡ placed_seats (state_of self.now) }
    {
        let ranks = rank_seats(&self.codes);
        place_seats(&self.seats, ranks.as_slice())
    }

    // Term 0 is zero and has the first seat, so only what follows is dropped.
    pub fn renew(&mut self)
        ensures { state_of self.new ≡ new_state }
    {
        self.codes.clear();
        self.rows.clear();
        self.seats.truncate(1);
        self.terms.truncate(1);
    }

    // A call that refuses answers the cause; the engine that makes it adds its letter.
    pub fn note_term(&mut self, term: Term) -> Result<(), Cause>
        ensures answers { result ≡ answer_of (on_note_term (state_of self.old) term).refusal }
        ensures leaves { state_of self.new ≡ (on_note_term (state_of self.old) term).next }
    {
        check_term(&self.terms, term)?;
        self.check_no_codes()?;
        list_seat(&mut self.seats, self.terms.len(), term);
        self.terms.push_reserved(term);
        Ok(())
    }

    pub fn note_row(&mut self, row: Row) -> Result<(), Cause>
        ensures answers { result ≡ answer_of (on_note_row (state_of self.old) row).refusal }
        ensures leaves { state_of self.new ≡ (on_note_row (state_of self.old) row).next }
    {
        check_row(&self.terms, self.rows.len(), row)?;
        self.check_no_codes()?;
        self.rows.push_reserved(Noted { row, active: true });
        Ok(())
    }

    #[tactic(auto, using(crate::proofs::Fitting::rows_take))]
    pub fn strike(&mut self) -> Result<(), Cause>
        ensures answers { result ≡ answer_of (on_strike (state_of self.old)).refusal }
        ensures leaves { state_of self.new ≡ (on_strike (state_of self.old)).next }
    {
        if self.rows.is_empty() {
            return Err(Cause::NoRowToStrike);
        }
        self.check_no_codes()?;
        self.rows.pop();
        Ok(())
    }

    // Makes row i active, or mutes it: the flag is the mark that a row has.
    #[tactic(auto, using(crate::proofs::Fitting::rows_marked, crate::proofs::Fitting::set_mark))]
    pub fn mark(&mut self, i: u8, active: bool) -> Result<(), Cause>
        ensures answers { result ≡ answer_of (on_mark (state_of self.old) i active).refusal }
        ensures leaves { state_of self.new ≡ (on_mark (state_of self.old) i active).next }
    {
        if i as usize >= self.rows.len() {
            return Err(Cause::NoSuchRow);
        }
        self.check_no_codes()?;
        self.rows[i as usize].active = active;
        Ok(())
    }

    #[tactic(auto, using(crate::proofs::Ranks::valid_push))]
    pub fn place(&mut self, code: u8) -> Result<(), Cause>
        ensures answers { result ≡ answer_of (on_place (state_of self.old) code).refusal }
        ensures leaves { state_of self.new ≡ (on_place (state_of self.old) code).next }
    {
        if self.codes.len() >= self.seats.len() {
            return Err(Cause::EverySeatPlaced);
        }
        if code as usize > 2 * count_blocks(&self.codes) {
            return Err(Cause::CodeTooHigh);
        }
        self.codes.push_reserved(code);
        Ok(())
    }

    #[tactic(auto, using(crate::proofs::Ranks::valid_take))]
    pub fn lift(&mut self) -> Result<(), Cause>
        ensures answers { result ≡ answer_of (on_lift (state_of self.old)).refusal }
        ensures leaves { state_of self.new ≡ (on_lift (state_of self.old)).next }
    {
        if self.codes.is_empty() {
            return Err(Cause::NoCodeToLift);
        }
        self.codes.pop();
        Ok(())
    }

    // Terms, rows and marks are not touched while codes are placed.
    fn check_no_codes(&self) -> Result<(), Cause>
        ensures { result ≡ answer_of (codes_refusal (state_of self.now)) }
    {
        if !self.codes.is_empty() {
            return Err(Cause::CodesPlaced);
        }
        Ok(())
    }
}

// Lists the term with this index among the seats if it is dated.
fn list_seat(seats: &mut Vec<u8>, index: usize, term: Term)
    requires small { index < 256 }
    requires room { is_dated term.kind ≡ true → vec_len seats.old < vec_capacity seats.old }
    ensures items { seats.new.items ≡ seats.old.items ++ (if is_dated term.kind then index ∷ [] else []) }
    ensures capacity { vec_capacity seats.new ≡ vec_capacity seats.old }
{
    if term.is_dated() {
        seats.push_reserved(index as u8);
    }
}
