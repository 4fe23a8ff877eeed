// A refusal of a whole sheet.
ghost use Rattle.std.specs.Prelude.{Some};
ghost use Rattle.sheet.specs.Words.{words_of_refusal};

use crate::fault::Fault;
use std::error::Error;
use std::fmt;

// Why a sheet is refused, and the byte where the refused field starts.
#[derive(Clone, Copy, Debug, PartialEq, Eq)]
pub struct Refusal {
    pub fault: Fault,
    pub place: usize,
}

impl fmt::Display for Refusal {
    ghost output = { λ e. Some (words_of_refusal e) };

    fn fmt<W: fmt::Write>(&self, f: &mut fmt::Formatter<W>) -> fmt::Result {
        let fault = self.fault;
        let place = self.place;
        write!(f, "refused {fault} {place}")
    }
}

impl Error for Refusal {}
