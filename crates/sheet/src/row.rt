// Rows: what a sheet says of the numbers of two terms.
ghost use Rattle.std.specs.Prelude.{Some};
ghost use Rattle.sheet.specs.Words.{words_of_row};

use std::fmt;

// Each case names its terms, as each kind of row field does. One relation beside two terms would be no plainer: whoever reads a row
// has to tell its kind first, and would match twice.
#[derive(Clone, Copy, Debug, PartialEq, Eq)]
pub enum Row {
    // A difference bound: the number of `left` minus that of `right` is at most `bound`.
    Span { left: u8, right: u8, bound: i32 },
    // The two numbers are equal.
    Same { left: u8, right: u8 },
    // The two numbers differ.
    Unlike { left: u8, right: u8 },
}

impl fmt::Display for Row {
    ghost output = { λ r. Some (words_of_row r) };

    fn fmt<W: fmt::Write>(&self, f: &mut fmt::Formatter<W>) -> fmt::Result {
        match *self {
            Row::Span { left, right, bound } => write!(
                f,
                "span: term {left} - term {right} <= {bound}"
            ),
            Row::Same { left, right } => write!(f, "same: term {left} = term {right}"),
            Row::Unlike { left, right } => write!(f, "unlike: term {left} <> term {right}"),
        }
    }
}
