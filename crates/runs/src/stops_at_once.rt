// A client that stops at once.
ghost use Rattle.std.specs.Prelude.{◌≡◌, None, true};
ghost use Rattle.runs.specs.Heard.{history_of};

use crate::choice::{OpenChoice, ShownChoice};
use crate::client::Client;
use crate::heard::Heard;
use search::verdict::Verdict;
use sheet::fault::Fault;

// It never asks for anything. It has room for one answer, as every client needs that is to be told one.
#[derive(Debug, Drop)]
pub struct StopsAtOnce {
    pub heard: Option<Heard>,
}

impl Client for StopsAtOnce {
    ghost history = { λ c. history_of c.heard };

    ghost stopped = { λ _. true };

    ghost ready = { λ c. c.heard ≡ None };

    fn choose_at_bench(&mut self) -> OpenChoice {
        OpenChoice::Stop
    }

    fn choose_at_result(&mut self) -> ShownChoice {
        ShownChoice::Stop
    }

    fn told_done(&mut self) {
        self.heard = Some(Heard::Done);
    }

    fn told_refused(&mut self, fault: Fault) {
        self.heard = Some(Heard::Refused(fault));
    }

    fn told_judged(&mut self, verdict: &Verdict) {
        self.heard = Some(Heard::Judged(verdict.copy()));
    }
}
