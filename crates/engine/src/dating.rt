// The interface of an engine that dates.
ghost use Rattle.std.specs.Prelude.{◌≡◌, ℕ, Bool, List, ℤ, MatchResult};
ghost use Rattle.engine.specs.Dates.{Dated, Undated};
ghost use Rattle.engine.specs.Rows.{RowKind};
ghost use Rattle.sheet.specs.declared.row.Row.{Row};
ghost use Rattle.sheet.specs.declared.term.Term.{Term};

use crate::engine::Engine;
use crate::limits::MAX_SEATS;
use arrayvec::ArrayVec;
use sheet::fault::Fault;

// An engine with one function more: a number for each seat.
pub trait Dating: Engine {
    // the kinds of rows that the numbers make true, of those that stand on dated terms alone
    ghost counts: { RowKind → Bool };

    // which numbers they are, by the setting, the terms, the active rows and the codes alone
    ghost picks: { ℕ → List Term → List Row → List ℕ → List ℤ → Type 0 };

    // The number of each seat, in the order of the seats.
    fn dates(&self) -> Result<ArrayVec<i64, MAX_SEATS>, Fault>
        ensures { let rule = Self.rule (Self.setting self.now) in
            let state = Self.state self.now in
            MatchResult result
            (λ dates. Dated rule state counts (picks (Self.setting self.now)) dates.items)
            (λ fault. Undated rule state Self.LETTER fault) };

    // there is only one choice of them
    ghost once: { (n : ℕ) (ts : List Term) (rows : List Row) (codes : List ℕ) (a b : List ℤ) →
        picks n ts rows codes a → picks n ts rows codes b → a ≡ b };
}
