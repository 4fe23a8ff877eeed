// A program on its host: what it is asked for, what it is given, and what it tells a person.
ghost use Rattle.std.specs.Prelude.{◌≤◌, IfOk, IfSome, vec_len};

use crate::input::{LIMIT, read_first};
use anyhow::anyhow;
use sheet::refusal::Refusal;
use std::{env, io};

// The name stands before each notice, and the help is what --help prints.
#[derive(Clone, Copy)]
pub struct Program<'a> {
    pub rt: &'a HostRuntime,
    pub name: &'a str,
    pub help: &'a str,
}

impl Program<'_> {
    // The sheet to work on, or nothing where the help was asked for, which is then printed.
    pub fn sheet(&self) -> anyhow::Result<Option<Vec<u8>>>
        ensures { IfOk result (λ answer. IfSome answer (λ sheet. vec_len sheet ≤ 8192)) }
    {
        if self.asks_for_help()? {
            println!(self.rt; "{}", self.help)?;
            return Ok(None);
        }
        let sheet = self.read_sheet()?;
        if sheet.is_empty() {
            eprintln!(self.rt; "{}: no bytes came in\n{}", self.name, self.help)?;
        }
        Ok(Some(sheet))
    }

    // Whether --help is given. There is no other argument.
    pub fn asks_for_help(&self) -> anyhow::Result<bool> {
        match env::args(self.rt)?.nth(1) {
            None => Ok(false),
            Some(word) if word.as_str() == "--help" || word.as_str() == "-h" => Ok(true),
            Some(_) => Err(anyhow!("unknown argument: try {} --help", self.name)),
        }
    }

    // The first bytes of standard input. Where more may follow, a person is told that they are not read.
    pub fn read_sheet(&self) -> io::Result<Vec<u8>>
        ensures { IfOk result (λ sheet. vec_len sheet ≤ 8192) }
    {
        let sheet = read_first(self.rt.alloc(), self.rt.stdin())?;
        if sheet.len() == LIMIT {
            eprintln!(self.rt;
                "{}: {LIMIT} bytes came in, and no more are read",
                self.name
            )?;
        }
        Ok(sheet)
    }

    // Tells a person why a field is refused.
    pub fn explain(&self, refusal: Refusal) -> io::Result<()> {
        let place = refusal.place;
        let cause = refusal.fault.cause;
        eprintln!(self.rt;
            "{}: the field that starts at byte {place}: {cause}",
            self.name
        )
    }
}
