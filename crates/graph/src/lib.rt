#![tactic(auto)]
// Difference constraints as a graph: a vertex for each unknown, an edge for each constraint.
// The theory is in specs/ and proofs/.

// The number of `to` is at most that of `from` plus the weight.
#[derive(Clone, Copy, Debug, PartialEq, Eq, Default)]
pub struct Edge {
    pub to: u8,
    pub from: u8,
    pub weight: i32,
}
