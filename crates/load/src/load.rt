// A whole sheet, loaded into a bench.
ghost use Rattle.std.specs.Prelude.{◌≡◌, [], ◌∷◌, Some};
ghost use Rattle.engine.specs.Terms.{zero_term};
ghost use Rattle.search.specs.Unmuted.{standing_state};
ghost use Rattle.bench.specs.Benches.{rows_at, terms_at};
ghost use Rattle.load.specs.Loading.{LoadedAs, LoadsOnly};

use crate::declare::declare_terms;
use crate::enter::enter_rows;
use bench::bench::Bench;
use bench::draft::Draft;
use engine::engine::Engine;
use sheet::refusal::Refusal;

// The bench over the terms of a sheet, with its rows; or over zero alone, and why the sheet is refused.
#[derive(Drop)]
pub struct Loaded<F: Engine, S: Engine> {
    pub bench: Bench<F, S>,
    pub refusal: Option<Refusal>,
}

impl<F: Engine, S: Engine> Loaded<F, S> {
    // A bench of a refused sheet begins anew.
    fn refused(bench: Bench<F, S>, refusal: Refusal) -> Loaded<F, S>
        ensures refusal { result.refusal ≡ Some refusal }
        ensures terms { terms_at result.bench ≡ zero_term ∷ [] }
        ensures rows { rows_at result.bench ≡ [] }
        ensures by_first { F.state result.bench.first ≡ standing_state (terms_at result.bench) [] }
        ensures by_second { S.state result.bench.second ≡ standing_state (terms_at result.bench) [] }
        ensures keeps_first { F.setting result.bench.first ≡ F.setting bench.first }
        ensures keeps_second { S.setting result.bench.second ≡ S.setting bench.second }
    {
        Loaded {
            bench: bench.emptied(),
            refusal: Some(refusal),
        }
    }
}

// Loads a sheet. What the draft has declared is dropped; its room is used, so that no memory is asked for. The terms of the sheet are declared in it, it is
// sealed, and the rows are entered. The first fault ends it, and leaves nothing of the sheet.
pub fn load<F: Engine, S: Engine>(
    mut draft: Draft,
    sheet: &[u8],
    first: F,
    second: S,
) -> Loaded<F, S>
    ensures loads { LoadedAs sheet.now result.refusal (terms_at result.bench) (rows_at result.bench) }
    ensures only { LoadsOnly sheet.now result.refusal (terms_at result.bench) (rows_at result.bench) }
    ensures by_first { F.state result.bench.first ≡ standing_state (terms_at result.bench) [] }
    ensures by_second { S.state result.bench.second ≡ standing_state (terms_at result.bench) [] }
    ensures keeps_first { F.setting result.bench.first ≡ F.setting first }
    ensures keeps_second { S.setting result.bench.second ≡ S.setting second }
{
    draft.clear();
    let declared = declare_terms(&mut draft, sheet);
    let mut bench = draft.seal(first, second);
    let entered = match declared {
        Ok(left) => enter_rows(&mut bench, sheet, left),
        Err(refusal) => Err(refusal),
    };
    match entered {
        Ok(()) => Loaded {
            bench,
            refusal: None,
        },
        Err(refusal) => Loaded::refused(bench, refusal),
    }
}
