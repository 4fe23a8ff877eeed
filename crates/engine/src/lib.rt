#![tactic(auto)]
// Engines: parts that decide, for a list of terms and a list of rows, which arrangements of the seats they allow.
pub mod arrangement;
pub mod dating;
pub mod engine;
pub mod holdings;
pub mod limits;
pub mod noted;
pub mod placed;
pub mod refusals;
mod rows;
pub mod terms;
