#![tactic(auto)]
// Reads terms and then commands, performs each command at a bench with the table engine and the span engine, and prints what
// came of it.
mod command;
#[cfg(test)]
mod command_cases;
mod lines;
#[cfg(test)]
mod lines_cases;
mod performing;
mod reading;
mod said;
mod session;
mod transcript;

use crate::transcript::run_session;
use anyhow::anyhow;
use program::host::Program;

const HELP: &str = "usage: benchrun < SESSION

Standard input begins with the term fields of a sheet, and then has lines of commands:
  enter span I J C     the number of term I minus that of term J is at most C
  enter same I J       the two numbers are equal
  enter unlike I J     they differ
  strike               takes the last row off
  judge                finds a set-up, or the rows of a clash; the result is shown then
  reopen               goes back to the rows; while a result is shown this comes first
Terms go by their indices, zero's being 0. Printed is for each line one of these:
  done                 the row was entered or struck, or the bench reopened
  refused NUMBER B     the row was not, or there is none to strike
  setup                and a line for each dated term follows, zero first: code SEAT CODE
  clash                and a line for each row of the clash follows: row NUMBER
  not now: ..          the command has no place: a result is shown, or none is
  no command           the line is none
If a term is refused, only this line is printed:
  refused NUMBER LAYER PLACE
At most the first 8192 bytes are read.

samples/session.txt is a session to try, and tools/mksheet makes it into what is read here:
  tools/mksheet < samples/session.txt > my.session
docs/MEANING.md says what terms, rows and codes are, docs/REFUSALS.md what each number means.";

fn main(rt: HostRuntime) -> anyhow::Result<()> {
    run(&rt)
}

fn run(rt: &HostRuntime) -> anyhow::Result<()> {
    let program = Program {
        rt,
        name: "benchrun",
        help: HELP,
    };
    let Some(input) = program.sheet()? else {
        return Ok(());
    };
    match run_session(rt.alloc(), input.as_slice())? {
        Ok(transcript) => {
            let text = transcript.text.as_str();
            print!(rt; "{text}")?;
            if transcript.lines_left {
                return Err(anyhow!("there was no memory for the other lines"));
            }
        }
        Err(refusal) => {
            println!(rt; "{refusal}")?;
            program.explain(refusal)?;
        }
    }
    Ok(())
}
