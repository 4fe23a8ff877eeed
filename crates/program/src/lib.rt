#![tactic(auto)]
// What the programs have in common: their one argument, the sheet that they read, and what they tell a person.
pub mod host;
pub mod input;
#[cfg(test)]
mod input_cases;
