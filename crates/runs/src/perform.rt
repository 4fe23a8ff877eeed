// One choice performed at the bench, and the client told what came of it.
ghost use Rattle.runs.specs.Events.{enter, strike, judge, reopen};
ghost use Rattle.runs.specs.Stages.{Performed};
ghost use Rattle.runs.specs.declared.stage.Stage.TheVariants.{AtBench, AtResult};

use crate::client::Client;
use bench::bench::Bench;
use bench::shown::Shown;
use engine::engine::Engine;
use sheet::row::Row;

pub(crate) fn enter_for<F: Engine, S: Engine, C: Client>(
    bench: Bench<F, S>,
    client: &mut C,
    row: Row,
) -> Bench<F, S>
    requires { C.ready client.old }
    ensures { Performed F.Engine S.Engine (AtBench bench) (enter row) (AtBench result) (C.history client.old) (C.history client.new) }
{
    let mut bench = bench;
    match bench.enter(row) {
        Ok(()) => client.told_done(),
        Err(fault) => client.told_refused(fault),
    }
    bench
}

pub(crate) fn strike_for<F: Engine, S: Engine, C: Client>(
    bench: Bench<F, S>,
    client: &mut C,
) -> Bench<F, S>
    requires { C.ready client.old }
    ensures { Performed F.Engine S.Engine (AtBench bench) strike (AtBench result) (C.history client.old) (C.history client.new) }
{
    let mut bench = bench;
    match bench.strike() {
        Ok(()) => client.told_done(),
        Err(fault) => client.told_refused(fault),
    }
    bench
}

pub(crate) fn judge_for<F: Engine, S: Engine, C: Client>(
    bench: Bench<F, S>,
    client: &mut C,
) -> Shown<F, S>
    requires { C.ready client.old }
    ensures { Performed F.Engine S.Engine (AtBench bench) judge (AtResult result) (C.history client.old) (C.history client.new) }
{
    let shown = bench.judge();
    client.told_judged(shown.verdict());
    shown
}

pub(crate) fn reopen_for<F: Engine, S: Engine, C: Client>(
    shown: Shown<F, S>,
    client: &mut C,
) -> Bench<F, S>
    requires { C.ready client.old }
    ensures { Performed F.Engine S.Engine (AtResult shown) reopen (AtBench result) (C.history client.old) (C.history client.new) }
{
    let bench = shown.reopen();
    client.told_done();
    bench
}
