// Where a run stands.

use bench::bench::Bench;
use bench::shown::Shown;
use engine::engine::Engine;

// The bench is open, or its result is shown.
#[derive(Drop)]
pub enum Stage<F: Engine, S: Engine> {
    AtBench(Bench<F, S>),
    AtResult(Shown<F, S>),
}
