#![tactic(auto)]
// The combination of the two rules: theorems, each the contract of a function that does nothing, and what they say of some sheets.
pub mod combination;
pub mod models;
pub mod sheets;
pub mod unsound;
