// Terms: the unknown whole numbers of a sheet.
ghost use Rattle.std.specs.Prelude.{◌≡◌, Some, length};
ghost use Rattle.sheet.specs.Fields.{form_bytes, kind_byte};
ghost use Rattle.sheet.specs.Parsing.{kind_of};
ghost use Rattle.sheet.specs.Terms.{is_dated, well_lettered};
ghost use Rattle.sheet.specs.Words.{words_of_form, words_of_kind};

use crate::fault::Cause;
use std::fmt;

// A dated term is an instant, counted in ticks; a level is a value that a signal generator plays.
#[derive(Clone, Copy, Debug, PartialEq, Eq)]
pub enum Kind {
    Dated,
    Level,
}

// A term is a name, or a table applied to one or two other terms. A table has a letter; a term goes by its index.
// Whether the terms stand earlier is not tested here. One and Two are two cases, as a sheet has two forms of other lengths; a list of
// arguments could have a length that no form has.
#[derive(Clone, Copy, Debug, PartialEq, Eq)]
pub enum Form {
    Name,
    One { table: char, argument: u8 },
    Two { table: char, first: u8, second: u8 },
}

#[derive(Clone, Copy, Debug, PartialEq, Eq)]
pub struct Term {
    pub kind: Kind,
    pub form: Form,
}

impl Form {
    // Whether the table, if there is one, has a letter from A to Z.
    pub fn is_well_lettered(self) -> bool
        ensures { result ≡ well_lettered self }
    {
        match self {
            Form::Name => true,
            Form::One { table, .. } | Form::Two { table, .. } => table.is_ascii_uppercase(),
        }
    }

    // How many bytes the form takes in a field.
    pub(crate) fn size(self) -> usize
        ensures { result ≡ length (form_bytes self) }
    {
        match self {
            Form::Name => 1,
            Form::One { .. } => 3,
            Form::Two { .. } => 4,
        }
    }
}

impl Term {
    pub fn is_dated(&self) -> bool
        ensures { result ≡ is_dated self.now.kind }
    {
        self.kind == Kind::Dated
    }
}

// The byte of a kind in a field.
impl From<Kind> for u8 {
    ghost from_gives = { λ k b. b ≡ kind_byte k };

    fn from(kind: Kind) -> u8 {
        match kind {
            Kind::Dated => b'D',
            Kind::Level => b'L',
        }
    }
}

impl TryFrom<u8> for Kind {
    type Error = Cause;

    ghost try_from_gives = { λ b r. r ≡ kind_of b };

    fn try_from(byte: u8) -> Result<Kind, Cause> {
        match byte as char {
            'D' => Ok(Kind::Dated),
            'L' => Ok(Kind::Level),
            _ => Err(Cause::MalformedTerm),
        }
    }
}

impl fmt::Display for Kind {
    ghost output = { λ k. Some (words_of_kind k) };

    fn fmt<W: fmt::Write>(&self, f: &mut fmt::Formatter<W>) -> fmt::Result {
        f.write_str(match self {
            Kind::Dated => "dated",
            Kind::Level => "a level",
        })
    }
}

impl fmt::Display for Form {
    ghost output = { λ g. Some (words_of_form g) };

    fn fmt<W: fmt::Write>(&self, f: &mut fmt::Formatter<W>) -> fmt::Result {
        match *self {
            Form::Name => write!(f, "a name"),
            Form::One { table, argument } => write!(f, "table {table} at term {argument}"),
            Form::Two {
                table,
                first,
                second,
            } => write!(f, "table {table} at terms {first} and {second}"),
        }
    }
}
