// The engine interface.
ghost use Rattle.std.specs.Prelude.{◌≡◌, ℕ, ◌↔◌, IsTrue, true, false, List, ◌∷◌, ◌++◌};
ghost use Rattle.engine.specs.Calls.{on_lift, on_mark, on_note_row, on_note_term, on_place, on_strike};
ghost use Rattle.engine.specs.Letters.{is_engine_letter};
ghost use Rattle.engine.specs.Refusals.{answer_in};
ghost use Rattle.engine.specs.States.{Completion, State, new_state};
ghost use Rattle.sheet.specs.declared.row.Row.{Row};
ghost use Rattle.sheet.specs.declared.term.Term.{Term};

use sheet::fault::Fault;
use sheet::row::Row;
use sheet::term::Term;

// An engine holds terms, rows and codes, and tells whether its rule allows an arrangement that begins with the codes.
// A call that refuses changes nothing, and its fault shows the engine's letter.
pub trait Engine {
    // The engine's letter. It is a constant of the implementation, and clauses know it by the same name.
    const LETTER: char;

    ghost LETTER: { ℕ };

    // what the engine holds
    ghost state: { Self → State };

    // what the engine was made with: no call changes it, and each says so itself, since the fact is of an engine before and after,
    // which no invariant of a type can hold
    ghost setting: { Self → ℕ };

    // which arrangements are allowed, by the setting, the terms, the active rows and the codes alone
    ghost rule: { ℕ → List Term → List Row → List ℕ → Type 0 };

    // Makes the engine new: it holds zero, no row and no code. It may be called at any time.
    fn renew(&mut self)
        ensures leaves { state self.new ≡ new_state }
        ensures keeps { setting self.new ≡ setting self.old };

    // Adds a term at the end.
    fn note_term(&mut self, term: Term) -> Result<(), Fault>
        ensures answers { result ≡ answer_in LETTER (on_note_term (state self.old) term).refusal }
        ensures leaves { state self.new ≡ (on_note_term (state self.old) term).next }
        ensures keeps { setting self.new ≡ setting self.old };

    // Adds a row at the end, active.
    fn note_row(&mut self, row: Row) -> Result<(), Fault>
        ensures answers { result ≡ answer_in LETTER (on_note_row (state self.old) row).refusal }
        ensures leaves { state self.new ≡ (on_note_row (state self.old) row).next }
        ensures keeps { setting self.new ≡ setting self.old };

    // Removes the last row.
    fn strike(&mut self) -> Result<(), Fault>
        ensures answers { result ≡ answer_in LETTER (on_strike (state self.old)).refusal }
        ensures leaves { state self.new ≡ (on_strike (state self.old)).next }
        ensures keeps { setting self.new ≡ setting self.old };

    // Makes row i count no more. It may be muted already. Mute and unmute are two calls, as those who use engines name them;
    // one function serves both.
    fn mute(&mut self, i: u8) -> Result<(), Fault>
        ensures answers { result ≡ answer_in LETTER (on_mark (state self.old) i false).refusal }
        ensures leaves { state self.new ≡ (on_mark (state self.old) i false).next }
        ensures keeps { setting self.new ≡ setting self.old };

    // Makes row i count again. It may be active already.
    fn unmute(&mut self, i: u8) -> Result<(), Fault>
        ensures answers { result ≡ answer_in LETTER (on_mark (state self.old) i true).refusal }
        ensures leaves { state self.new ≡ (on_mark (state self.old) i true).next }
        ensures keeps { setting self.new ≡ setting self.old };

    // Places the next seat by a code.
    fn place(&mut self, code: u8) -> Result<(), Fault>
        ensures answers { result ≡ answer_in LETTER (on_place (state self.old) code).refusal }
        ensures leaves { state self.new ≡ (on_place (state self.old) code).next }
        ensures keeps { setting self.new ≡ setting self.old };

    // Removes the last code.
    fn lift(&mut self) -> Result<(), Fault>
        ensures answers { result ≡ answer_in LETTER (on_lift (state self.old)).refusal }
        ensures leaves { state self.new ≡ (on_lift (state self.old)).next }
        ensures keeps { setting self.new ≡ setting self.old };

    // Whether some allowed arrangement begins with the codes placed.
    fn open(&self) -> bool
        ensures { IsTrue result ↔ Completion (rule (setting self.now)) (state self.now) };

    // the letter is none of another layer
    ghost own_letter: { IsTrue (is_engine_letter LETTER) };

    // what is allowed stays allowed when an active row is left out
    ghost fewer: { (n : ℕ) (ts : List Term) (front back : List Row) (r : Row) (codes : List ℕ) →
        rule n ts (front ++ r ∷ back) codes → rule n ts (front ++ back) codes };
}
