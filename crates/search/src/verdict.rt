// What is found of terms and rows.
ghost use Rattle.std.specs.Prelude.{◌≡◌};

use arrayvec::ArrayVec;
use engine::limits::{MAX_ROWS, MAX_SEATS};

// One code for each seat.
pub type Codes = ArrayVec<u8, MAX_SEATS>;

// Places of rows among the rows that stand.
pub type Places = ArrayVec<u8, MAX_ROWS>;

// Either the first arrangement that both engines allow, by its codes, or a clash: rows that allow none, of which no one can be left out.
// A set-up is the word for numbers and tables that make every row true; an arrangement is what is left to find one by.
#[derive(Debug, Drop, PartialEq, Eq)]
pub enum Verdict {
    Arrangement { codes: Codes },
    Clash { rows: Places },
}

impl Verdict {
    ghost use Rattle.search.specs.Verdicts.{value_of};

    // A verdict with the same lists.
    pub fn copy(&self) -> Verdict
        ensures { value_of result ≡ value_of self.now }
    {
        match self {
            Verdict::Arrangement { codes } => {
                let mut copy = Codes::new();
                let _ = copy.try_extend_from_slice(codes.as_slice());
                Verdict::Arrangement { codes: copy }
            }
            Verdict::Clash { rows } => {
                let mut copy = Places::new();
                let _ = copy.try_extend_from_slice(rows.as_slice());
                Verdict::Clash { rows: copy }
            }
        }
    }
}
