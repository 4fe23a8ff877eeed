#![tactic(auto)]
// Set-ups: the numbers and entries for an arrangement that was found, read off a shown result.
mod entries;
mod numbers;
mod recount;
pub mod set_up;
pub mod solve;
pub mod solved;
pub mod table_and_span;
