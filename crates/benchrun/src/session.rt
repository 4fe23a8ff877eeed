// A session.
ghost use Rattle.std.specs.Prelude.{◌≡◌, ◌≤◌, ◌+◌, false, if◌then◌else◌, length, take};
ghost use Rattle.std.proofs.Props.{props};
ghost use Rattle.benchrun.specs.Sessions.{count_performed, shown_after};

use crate::command::Command;
use crate::said::Said;
use runs::heard::Heard;
use std::marker::PhantomData;

// It does what its lines say, one after another, and notes what came of it. It stops behind the last one, or where there is no memory for
// a note.
#[derive(Drop)]
pub(crate) struct Session<'a, S: Said> {
    pub(crate) said: &'a [Option<Command>],
    // so many lines are passed
    pub(crate) passed: usize,
    // a result is shown
    pub(crate) shown: bool,
    // what came of the last command is not noted yet
    pub(crate) waiting: bool,
    pub(crate) stopped: bool,
    pub(crate) heard: Vec<Heard>,
    pub(crate) of: PhantomData<S>,
    ghost same: { said.now ≡ S.said } by { Prim.hlevel props },
    ghost within: { passed ≤ length said.now },
    ghost stage: { shown ≡ shown_after false (take passed said.now) },
    ghost count: { length heard.items + (if waiting then 1 else 0) ≡ count_performed false (take passed said.now) },
}
