#![tactic(auto)]
// The answer to a sheet: its set-up, its clash, or why it is refused, in lines.
#[cfg(test)]
mod cases;
mod lines;
pub mod listing;
#[cfg(test)]
mod read_off_cases;
