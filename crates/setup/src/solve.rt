// From an open bench to its result and set-up.
ghost use Rattle.std.specs.Prelude.{◌≡◌};
ghost use Rattle.bench.specs.Benches.{rows_at, terms_at};
ghost use Rattle.engine.specs.Rules.{TableAllowed};
ghost use Rattle.search.specs.Verdicts.{Judged};
ghost use Rattle.setup.specs.Parts.{found_in, rows_in, set_up_in, shown_in, terms_in};
ghost use Rattle.setup.specs.Solutions.{SetUpFound, SetUpOnly, SetUpRight};

use crate::solved::Solved;
use bench::bench::Bench;
use engine::dating::Dating;
use engine::engine::Engine;
use table::table::Table;

// Judges the rows that stand, and takes the set-up where an arrangement was found. Nothing is asked of the bench.
pub fn solve<S: Dating>(bench: Bench<Table, S>) -> Solved<S>
    ensures judges { Judged TableAllowed (S.rule (S.setting bench.second)) (terms_at bench) (rows_at bench) (found_in result) }
    ensures picks { let made_with = S.setting bench.second in
        SetUpFound (S.rule made_with) S.counts (S.picks made_with) (terms_at bench) (rows_at bench) (found_in result) (set_up_in result) }
    ensures only { let made_with = S.setting bench.second in
        SetUpOnly (S.rule made_with) S.counts (S.picks made_with) (terms_at bench) (rows_at bench) (found_in result) (set_up_in result) }
    ensures right { let made_with = S.setting bench.second in
        SetUpRight (S.rule made_with) S.counts (S.picks made_with) (terms_at bench) (rows_at bench) (found_in result) (set_up_in result) }
    ensures terms { terms_in result ≡ terms_at bench }
    ensures rows { rows_in result ≡ rows_at bench }
    ensures keeps_second { S.setting (shown_in result).second ≡ S.setting bench.second }
{
    Solved::of(bench.judge())
}
