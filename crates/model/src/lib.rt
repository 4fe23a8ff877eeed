#![tactic(auto)]
// The set-up that is picked for an arrangement: its numbers, its entries, and recounts from them. The theory is in specs/ and proofs/.
pub mod theorems;
