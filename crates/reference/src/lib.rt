#![tactic(auto)]
// A reference for the definitions, which the checker itself computes: what is answered to terms and rows, and worked sheets. It has no code.
pub mod theorems;
