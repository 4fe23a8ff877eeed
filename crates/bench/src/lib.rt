#![tactic(auto)]
// The bench: terms are declared in a draft, rows are entered and struck at an open bench, and a result is shown until the bench is reopened.
pub mod bench;
pub mod draft;
pub mod shown;
