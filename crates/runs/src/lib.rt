#![tactic(auto)]
// Runs at a bench: a client chooses what to do next and is told what came of it, and the law of all that it is told.
pub mod choice;
pub mod client;
pub mod heard;
mod perform;
pub mod run_client;
pub mod stage;
pub mod stops_at_once;
pub mod table_and_span;
