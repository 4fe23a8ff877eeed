// The interface of a client.
ghost use Rattle.std.specs.Prelude.{◌≡◌, List, [], ◌∷◌, ◌++◌, true, false, Bool};
ghost use Rattle.search.specs.Verdicts.{value_of};
ghost use Rattle.runs.specs.Events.{Event, asked, stops, choice_at_bench, choice_at_result, told, done, refused, judged};

use crate::choice::{OpenChoice, ShownChoice};
use search::verdict::Verdict;
use sheet::fault::Fault;

// Whoever works at a bench. It chooses what to do next, by all that it has seen, and is told what came of it. Once it has chosen to stop it
// chooses nothing else. Memory is finite, so a client that has no room for an answer chooses to stop: only one that goes on has to be
// ready to be told.
pub trait Client {
    // what it chose and what it was told, oldest first; a choice to stop is not among it
    ghost history: { Self → List Event };

    // it chose to stop
    ghost stopped: { Self → Bool };

    // it can be told an answer
    ghost ready: { Self → Type 0 };

    // What to do at an open bench.
    fn choose_at_bench(&mut self) -> OpenChoice
        ensures history { history self.new ≡ history self.old ++ asked (choice_at_bench result) }
        ensures stopped { stopped self.new ≡ stops (choice_at_bench result) }
        ensures stays { stopped self.old ≡ true → stops (choice_at_bench result) ≡ true }
        ensures ready { stops (choice_at_bench result) ≡ false → ready self.new };

    // What to do while a result is shown.
    fn choose_at_result(&mut self) -> ShownChoice
        ensures history { history self.new ≡ history self.old ++ asked (choice_at_result result) }
        ensures stopped { stopped self.new ≡ stops (choice_at_result result) }
        ensures stays { stopped self.old ≡ true → stops (choice_at_result result) ≡ true }
        ensures ready { stops (choice_at_result result) ≡ false → ready self.new };

    // It was done.
    fn told_done(&mut self)
        requires { ready self.old }
        ensures history { history self.new ≡ history self.old ++ told done ∷ [] }
        ensures stopped { stopped self.new ≡ stopped self.old };

    // It was refused.
    fn told_refused(&mut self, fault: Fault)
        requires { ready self.old }
        ensures history { history self.new ≡ history self.old ++ told (refused fault) ∷ [] }
        ensures stopped { stopped self.new ≡ stopped self.old };

    // It was judged, with this verdict.
    fn told_judged(&mut self, verdict: &Verdict)
        requires { ready self.old }
        ensures history { history self.new ≡ history self.old ++ told (judged (value_of verdict.now)) ∷ [] }
        ensures stopped { stopped self.new ≡ stopped self.old };
}
