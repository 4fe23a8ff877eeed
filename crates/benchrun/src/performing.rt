// The client of a session.
ghost use Rattle.std.specs.Prelude.{◌≡◌, [], ◌∷◌, ◌++◌, true, false, MatchOption, None, Some};
ghost use Rattle.runs.specs.Events.{choice_at_bench, told};
ghost use Rattle.benchrun.specs.Sessions.{asked_by, choice_of, has_place, is_judge, is_performed};
ghost use Rattle.runs.specs.Heard.{answer_heard};
ghost use Rattle.benchrun.specs.Histories.{IsReady, history_of};

use crate::command::Command;
use crate::said::Said;
use crate::session::Session;
use runs::choice::{OpenChoice, ShownChoice};
use runs::client::Client;
use runs::heard::Heard;
use search::verdict::Verdict;
use sheet::fault::Fault;
use std::alloc::Global;
use std::marker::PhantomData;

impl<'a, S: Said> Session<'a, S> {
    pub(crate) fn new(heap: Global, said: &'a [Option<Command>]) -> Session<'a, S>
        requires { said.now ≡ S.said }
        ensures { history_of result ≡ [] }
    {
        Session {
            said,
            passed: 0,
            shown: false,
            waiting: false,
            stopped: false,
            heard: Vec::new(heap),
            of: PhantomData,
        }
    }

    // Passes the lines up to the next one that is performed, where a result is shown or not. There is room for a note then.
    fn next_command(&mut self, shown: bool) -> Option<Command>
        ensures asked { history_of self.new ≡ history_of self.old ++ asked_by result }
        ensures place { MatchOption result
            (self.new.stopped ≡ true)
            (λ c. (self.new.stopped ≡ false) × (has_place shown c ≡ true) × IsReady self.new) }
        ensures stays { self.old.stopped ≡ true → result ≡ None }
    {
        // A run asks only where its client stands, and after each answer, but the contract of a client does not say so.
        let out_of_place = self.stopped || self.waiting || self.shown != shown;
        self.stopped = true;
        if out_of_place || self.heard.reserve(1).is_err() {
            return None;
        }
        while self.passed < self.said.len() {
            let line = self.said[self.passed];
            self.passed += 1;
            if is_performed(shown, line) {
                self.shown = is_judge(line);
                self.waiting = true;
                self.stopped = false;
                return line;
            }
        }
        None
    }

    // Notes what came of the last command.
    fn note(&mut self, note: Heard)
        requires { IsReady self.old }
        ensures history { history_of self.new ≡ history_of self.old ++ told (answer_heard note) ∷ [] }
        ensures stopped { self.new.stopped ≡ self.old.stopped }
    {
        self.heard.push_reserved(note);
        self.waiting = false;
    }
}

// Whether a line is performed, where a result is shown or not.
pub(crate) fn is_performed(shown: bool, line: Option<Command>) -> bool
    ensures { result ≡ is_performed shown line }
{
    match line {
        None => false,
        Some(Command::Reopen) => shown,
        Some(_) => !shown,
    }
}

// Whether a result is shown behind a line that is performed.
pub(crate) fn is_judge(line: Option<Command>) -> bool
    ensures { result ≡ is_judge line }
{
    matches!(line, Some(Command::Judge))
}

// What the command chooses at an open bench.
fn open_choice(command: Command) -> OpenChoice
    requires { has_place false command ≡ true }
    ensures { choice_at_bench result ≡ Some (choice_of command) }
{
    match command {
        Command::Enter(row) => OpenChoice::Enter(row),
        Command::Strike => OpenChoice::Strike,
        Command::Judge => OpenChoice::Judge,
        Command::Reopen => unreachable!(),
    }
}

impl<S: Said> Client for Session<'_, S> {
    ghost history = { λ s. history_of s };

    ghost stopped = { λ s. s.stopped };

    ghost ready = { λ s. IsReady s };

    fn choose_at_bench(&mut self) -> OpenChoice {
        match self.next_command(false) {
            Some(command) => open_choice(command),
            None => OpenChoice::Stop,
        }
    }

    fn choose_at_result(&mut self) -> ShownChoice {
        match self.next_command(true) {
            Some(_) => ShownChoice::Reopen,
            None => ShownChoice::Stop,
        }
    }

    fn told_done(&mut self) {
        self.note(Heard::Done);
    }

    fn told_refused(&mut self, fault: Fault) {
        self.note(Heard::Refused(fault));
    }

    fn told_judged(&mut self, verdict: &Verdict) {
        self.note(Heard::Judged(verdict.copy()));
    }
}
