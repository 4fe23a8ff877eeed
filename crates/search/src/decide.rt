// What two engines find of the terms and rows that stand.
ghost use Rattle.std.specs.Prelude.{◌≡◌};
ghost use Rattle.search.specs.Standing.{terms_of, rows_of};
ghost use Rattle.search.specs.Verdicts.{Judged, found_state, value_of};

use crate::clash::find_clash;
use crate::find::find_first;
use crate::note::note_standing;
use crate::standing::Standing;
use crate::verdict::Verdict;
use engine::engine::Engine;

// Notes what stands in both engines, and finds the first arrangement that both allow, or the rows of the clash. Both engines are left with what
// stands: at an arrangement its codes are placed, and at a clash just its rows are active.
pub fn decide<F: Engine, S: Engine>(first: &mut F, second: &mut S, standing: &Standing) -> Verdict
    ensures judges { Judged (F.rule (F.setting first.old)) (S.rule (S.setting second.old)) (terms_of standing.now) (rows_of standing.now) (value_of result) }
    ensures leaves_first { F.state first.new ≡ found_state (terms_of standing.now) (rows_of standing.now) (value_of result) }
    ensures leaves_second { S.state second.new ≡ found_state (terms_of standing.now) (rows_of standing.now) (value_of result) }
    ensures keeps_first { F.setting first.new ≡ F.setting first.old }
    ensures keeps_second { S.setting second.new ≡ S.setting second.old }
{
    note_standing(first, standing);
    note_standing(second, standing);
    match find_first(first, second) {
        Some(codes) => Verdict::Arrangement { codes },
        None => Verdict::Clash {
            rows: find_clash(first, second, standing.rows().len() as u8),
        },
    }
}
