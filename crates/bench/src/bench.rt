// An open bench.
ghost use Rattle.std.specs.Prelude.{◌≡◌, ◌↔◌, ◌<◌, [], ◌∷◌, ◌++◌, true, length, IsOk};
ghost use Rattle.engine.specs.Calls.{unless_refused, without_last};
ghost use Rattle.engine.specs.Fitting.{row_fits};
ghost use Rattle.engine.specs.Limits.{max_rows};
ghost use Rattle.engine.specs.Refusals.{answer_in, row_refusal, strike_refusal};
ghost use Rattle.engine.specs.Terms.{zero_term};
ghost use Rattle.search.specs.Standing.{terms_of, rows_of};
ghost use Rattle.search.specs.Verdicts.{Judged};
ghost use Rattle.bench.specs.Letters.{bench_letter};

use crate::shown::Shown;
use engine::engine::Engine;
use search::decide::decide;
use search::note::note_standing;
use search::standing::Standing;
use sheet::fault::Fault;
use sheet::layer::InLayer;
use sheet::row::Row;
use sheet::term::Term;

// The letter of the layer that takes rows.
const BENCH: char = 'B';

// A bench has its terms, which do not change, and the rows that stand: those accepted and not since struck. It owns two engines, and gives them what stands
// whenever it needs them, so that no answer rests on what an engine was left holding. Its engines hold its terms all the while.
#[derive(Drop)]
pub struct Bench<F: Engine, S: Engine> {
    pub(crate) standing: Standing,
    pub(crate) first: F,
    pub(crate) second: S,
    ghost terms_by_first: { (F.state first).terms ≡ terms_of standing },
    ghost terms_by_second: { (S.state second).terms ≡ terms_of standing },
}

impl<F: Engine, S: Engine> Bench<F, S> {
    ghost use Rattle.bench.specs.Benches.{terms_at, rows_at, terms_shown, rows_shown, BothHold, found};

    // A bench whose engines are made new and hold what stands.
    pub(crate) fn with_engines(standing: Standing, first: F, second: S) -> Bench<F, S>
        ensures terms { terms_at result ≡ terms_of standing }
        ensures rows { rows_at result ≡ rows_of standing }
        ensures engines { BothHold F.Engine S.Engine result }
        ensures keeps_first { F.setting result.first ≡ F.setting first }
        ensures keeps_second { S.setting result.second ≡ S.setting second }
    {
        let mut first = first;
        let mut second = second;
        note_standing(&mut first, &standing);
        note_standing(&mut second, &standing);
        Bench {
            standing,
            first,
            second,
        }
    }

    // The terms, zero first.
    pub fn terms(&self) -> &[Term]
        ensures { result.now ≡ terms_at self.now }
    {
        self.standing.terms()
    }

    // Puts a row last. It is taken exactly where there is room for it and it fits the terms.
    pub fn enter(&mut self, row: Row) -> Result<(), Fault>
        ensures taken { IsOk result ↔ ((length (rows_at self.old) < max_rows) × (row_fits (terms_at self.old) row ≡ true)) }
        ensures answers { result ≡ answer_in bench_letter (row_refusal (terms_at self.old) (length (rows_at self.old)) row) }
        ensures rows { rows_at self.new ≡ unless_refused (row_refusal (terms_at self.old) (length (rows_at self.old)) row) (rows_at self.old) (rows_at self.old ++ row ∷ []) }
        ensures terms { terms_at self.new ≡ terms_at self.old }
        ensures engines { (self.new.first ≡ self.old.first) × (self.new.second ≡ self.old.second) }
    {
        self.standing.enter(row).in_layer(BENCH)
    }

    // Takes the last row off.
    pub fn strike(&mut self) -> Result<(), Fault>
        ensures answers { result ≡ answer_in bench_letter (strike_refusal (length (rows_at self.old))) }
        ensures rows { rows_at self.new ≡ without_last (rows_at self.old) }
        ensures terms { terms_at self.new ≡ terms_at self.old }
        ensures engines { (self.new.first ≡ self.old.first) × (self.new.second ≡ self.old.second) }
    {
        self.standing.strike().in_layer(BENCH)
    }

    // Begins anew with zero alone and no row, as over a new draft. The engines and the room stay.
    pub fn emptied(self) -> Bench<F, S>
        ensures terms { terms_at result ≡ zero_term ∷ [] }
        ensures rows { rows_at result ≡ [] }
        ensures engines { BothHold F.Engine S.Engine result }
        ensures keeps_first { F.setting result.first ≡ F.setting self.first }
        ensures keeps_second { S.setting result.second ≡ S.setting self.second }
    {
        let Bench {
            mut standing,
            first,
            second,
        } = self;
        standing.clear();
        Bench::with_engines(standing, first, second)
    }

    // Finds the first arrangement that both engines allow, or the rows of the clash. The bench is shown with what was found until it is reopened.
    pub fn judge(self) -> Shown<F, S>
        ensures judges { Judged (F.rule (F.setting self.first)) (S.rule (S.setting self.second)) (terms_at self) (rows_at self) (found result) }
        ensures terms { terms_shown result ≡ terms_at self }
        ensures rows { rows_shown result ≡ rows_at self }
        ensures keeps_first { F.setting result.first ≡ F.setting self.first }
        ensures keeps_second { S.setting result.second ≡ S.setting self.second }
    {
        let Bench {
            standing,
            mut first,
            mut second,
        } = self;
        let verdict = decide(&mut first, &mut second, &standing);
        Shown {
            standing,
            verdict,
            first,
            second,
        }
    }
}
