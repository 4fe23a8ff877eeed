// The terms and the rows that stand.
ghost use Rattle.std.specs.Prelude.{◌≡◌, ◌↔◌, ◌<◌, [], ◌∷◌, ◌++◌, true, length, IfOk, IsOk};
ghost use Rattle.engine.specs.States.{new_state};
ghost use Rattle.engine.specs.Terms.{seats_of};
ghost use Rattle.engine.specs.Calls.{unless_refused, without_last};
ghost use Rattle.engine.specs.Fitting.{row_fits};
ghost use Rattle.engine.specs.Holding.{state_of};
ghost use Rattle.engine.specs.Limits.{max_rows};
ghost use Rattle.engine.specs.Refusals.{answer_of, term_refusal, row_refusal, strike_refusal};
ghost use Rattle.search.specs.Unmuted.{all_unmuted};

use engine::holdings::Holdings;
use engine::noted::Noted;
use sheet::fault::Cause;
use sheet::row::Row;
use sheet::term::Term;
use std::alloc::{AllocError, Global};

// The terms declared, and the rows that stand: those accepted and not since struck. They are held as an engine holds them while no row is
// muted and no code is placed. All room is reserved when it is made.
#[derive(Drop)]
pub struct Standing {
    pub(crate) held: Holdings,
    ghost unmuted: { all_unmuted (state_of held).rows ≡ true },
    ghost no_codes: { (state_of held).codes ≡ [] },
}

impl Standing {
    ghost use Rattle.search.specs.Standing.{rows_of, state_in, terms_of};

    // Zero and no row.
    pub fn new(heap: Global) -> Result<Standing, AllocError>
        ensures { IfOk result (λ s. state_in s ≡ new_state) }
    {
        let held = Holdings::new(heap)?;
        Ok(Standing { held })
    }

    pub fn terms(&self) -> &[Term]
        ensures { result.now ≡ terms_of self.now }
    {
        self.held.terms()
    }

    // The indices of the dated terms.
    pub fn seats(&self) -> &[u8]
        ensures { result.now ≡ seats_of (terms_of self.now) }
    {
        self.held.seats()
    }

    pub(crate) fn rows(&self) -> &[Noted]
        ensures { result.now ≡ (state_in self.now).rows }
    {
        self.held.rows()
    }

    // Zero alone, and no row. The room stays.
    pub fn clear(&mut self)
        ensures { state_in self.new ≡ new_state }
    {
        self.held.renew();
    }

    // Adds a term at the end. Rows that stand fit the terms still.
    pub fn declare(&mut self, term: Term) -> Result<(), Cause>
        ensures answers { result ≡ answer_of (term_refusal (terms_of self.old) term) }
        ensures terms { terms_of self.new ≡ unless_refused (term_refusal (terms_of self.old) term) (terms_of self.old) (terms_of self.old ++ term ∷ []) }
        ensures rows { rows_of self.new ≡ rows_of self.old }
    {
        self.held.note_term(term)
    }

    // Puts a row last. It is taken exactly where there is room for it and it fits the terms.
    pub fn enter(&mut self, row: Row) -> Result<(), Cause>
        ensures taken { IsOk result ↔ ((length (rows_of self.old) < max_rows) × (row_fits (terms_of self.old) row ≡ true)) }
        ensures answers { result ≡ answer_of (row_refusal (terms_of self.old) (length (rows_of self.old)) row) }
        ensures rows { rows_of self.new ≡ unless_refused (row_refusal (terms_of self.old) (length (rows_of self.old)) row) (rows_of self.old) (rows_of self.old ++ row ∷ []) }
        ensures terms { terms_of self.new ≡ terms_of self.old }
    {
        self.held.note_row(row)
    }

    // Takes the last row off.
    pub fn strike(&mut self) -> Result<(), Cause>
        ensures answers { result ≡ answer_of (strike_refusal (length (rows_of self.old))) }
        ensures rows { rows_of self.new ≡ without_last (rows_of self.old) }
        ensures terms { terms_of self.new ≡ terms_of self.old }
    {
        self.held.strike()
    }
}
