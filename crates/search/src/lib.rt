#![tactic(auto)]
// The search for the first arrangement that two engines allow, and for the rows of a clash.
mod clash;
mod codes;
pub mod decide;
mod find;
pub mod note;
mod phase;
pub mod standing;
pub mod verdict;
