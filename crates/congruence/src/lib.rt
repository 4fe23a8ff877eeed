#![tactic(auto)]
// Equality over terms: numbers that respect congruence, the tables that they come from, and congruence closure.
// The theory is in specs/ and proofs/.
pub mod entry;
pub mod theorems;
