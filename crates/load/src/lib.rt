#![tactic(auto)]
// Loads a sheet into a bench.
pub mod declare;
mod enter;
pub mod load;
