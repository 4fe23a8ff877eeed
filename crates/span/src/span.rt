// The span engine: whether the span rows and the codes placed can be met.
ghost use Rattle.std.specs.Prelude.{◌≡◌, ◌↔◌, IsTrue, if◌then◌else◌, length, Some, None, IfOk};
ghost use Rattle.engine.specs.Rules.{SpanAllowed};
ghost use Rattle.engine.specs.States.{Completion, new_state};
ghost use Rattle.engine.specs.Terms.{seats_of};
ghost use Rattle.span.specs.Decisions.{DecisionOf, constraints_of, distances_of, becomes_stable_of};
ghost use Rattle.span.specs.SpanState.{state_in};

use crate::constraints::{EdgeList, list_order, list_rows};
use crate::relaxing::relax_rounds;
use engine::holdings::Holdings;
use engine::limits::MAX_TERMS;
use std::alloc::{AllocError, Global};

// It counts the span rows: difference bounds between instants. The other rows are noted and do not count.
#[derive(Drop)]
pub struct Span {
    pub(crate) held: Holdings,
}

impl Span {
    // A new engine, with all the room that it will ever need.
    pub fn new(heap: Global) -> Result<Span, AllocError>
        ensures { IfOk result (λ e. state_in e ≡ new_state) }
    {
        let held = Holdings::new(heap)?;
        Ok(Span { held })
    }

    // Whether some numbers fit the active span rows and the codes placed. There are none exactly when the graph
    // of the constraints has a negative cycle, and exactly when an edge still lowers a distance once a round was
    // made for each dated term.
    pub fn is_consistent(&self) -> bool
        ensures decision { DecisionOf (state_in self.now) result }
        ensures exact { IsTrue result ↔ Completion SpanAllowed (state_in self.now) }
    {
        self.shortest_distances().is_some()
    }

    // The distance of each term after these rounds, if no edge can lower one any more.
    pub(crate) fn shortest_distances(&self) -> Option<[i64; MAX_TERMS]>
        ensures { let s = state_in self.now in
            result ≡ (if becomes_stable_of s then Some (distances_of s) else None) }
    {
        let list = self.list_constraints();
        relax_rounds(list.as_slice(), self.count_rounds())
    }

    // As many rounds as there are dated terms: a walk that repeats no term has fewer edges.
    fn count_rounds(&self) -> usize
        ensures { result ≡ length (seats_of (state_in self.now).terms) }
    {
        self.held.seats().len()
    }

    // The constraints of the active span rows and of the codes placed.
    #[tactic(auto, using(crate::proofs::Parts::few_rows))]
    fn list_constraints(&self) -> EdgeList
        ensures { result.items ≡ constraints_of (state_in self.now) }
    {
        let placed = self.held.placed_seats();
        let mut list = EdgeList::new();
        list_rows(self.held.rows(), &mut list);
        list_order(placed.as_slice(), &mut list);
        list
    }
}
