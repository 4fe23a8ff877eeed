// A client is served at a new bench.
ghost use Rattle.std.specs.Prelude.{◌≡◌};
ghost use Rattle.theory.specs.Combining.{ExactTogether};
ghost use Rattle.search.specs.Verdicts.{Judged};
ghost use Rattle.bench.specs.Benches.{declared};
ghost use Rattle.runs.specs.Law.{Served, ChoicesDetermine};
ghost use Rattle.runs.specs.Judging.{JudgedTruly};
ghost use Rattle.runs.specs.Stages.{status_of, terms_in, first_in, second_in};

use crate::choice::{OpenChoice, ShownChoice};
use crate::client::Client;
use crate::perform::{enter_for, judge_for, reopen_for, strike_for};
use crate::stage::Stage;
use bench::draft::Draft;
use engine::engine::Engine;

// Seals a new bench over the draft's terms, and serves the client there until it stops, or until it made so many choices. The client never
// has the bench, so it cannot go back to an older one. What it is told obeys the law of runs, whichever engines and client these are.
pub fn run_client<F: Engine, S: Engine, C: Client>(
    draft: Draft,
    first: F,
    second: S,
    client: &mut C,
    limit: u64,
) -> Stage<F, S>
    ensures law { let by_first = F.rule (F.setting first) in
        let by_second = S.rule (S.setting second) in
        Served (Judged by_first by_second (declared draft)) (declared draft)
        (C.history client.old) (C.history client.new) (C.stopped client.new) limit (status_of result) }
    ensures truth { let by_first = F.rule (F.setting first) in
        let by_second = S.rule (S.setting second) in
        ExactTogether by_first by_second →
        Served (JudgedTruly by_first by_second (declared draft)) (declared draft)
        (C.history client.old) (C.history client.new) (C.stopped client.new) limit (status_of result) }
    ensures determined { let by_first = F.rule (F.setting first) in
        let by_second = S.rule (S.setting second) in
        ChoicesDetermine (Judged by_first by_second (declared draft)) (declared draft) }
    ensures terms { terms_in result ≡ declared draft }
    ensures keeps_first { F.setting (first_in result) ≡ F.setting first }
    ensures keeps_second { S.setting (second_in result) ≡ S.setting second }
{
    let mut stage = Stage::AtBench(draft.seal(first, second));
    for _ in 0..limit {
        stage = match stage {
            Stage::AtBench(bench) => match client.choose_at_bench() {
                OpenChoice::Enter(row) => Stage::AtBench(enter_for(bench, client, row)),
                OpenChoice::Strike => Stage::AtBench(strike_for(bench, client)),
                OpenChoice::Judge => Stage::AtResult(judge_for(bench, client)),
                OpenChoice::Stop => return Stage::AtBench(bench),
            },
            Stage::AtResult(shown) => match client.choose_at_result() {
                ShownChoice::Reopen => Stage::AtBench(reopen_for(shown, client)),
                ShownChoice::Stop => return Stage::AtResult(shown),
            },
        };
    }
    stage
}
