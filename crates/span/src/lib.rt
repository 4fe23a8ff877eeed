#![tactic(auto)]
// The span engine: difference bounds between instants, decided by Bellman-Ford.
mod constraints;
mod relaxing;
pub mod span;
pub mod span_dating;
pub mod span_engine;
