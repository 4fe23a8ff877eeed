// Refusals: why a call refuses, and which layer says so.
ghost use Rattle.std.specs.Prelude.{◌≡◌, Some};
ghost use Rattle.sheet.specs.Causes.{cause_number, fault_in};
ghost use Rattle.sheet.specs.Words.{words_of_cause, words_of_fault};

use std::error::Error;
use std::fmt;

// The layer letter of the reader and the writer. Layers have letters, and no enum, as `Fault` says.
pub const READER: char = 'R';

// Each ground for a refusal, with the number that people see. docs/REFUSALS.md lists them.
#[derive(Clone, Copy, Debug, PartialEq, Eq)]
pub enum Cause {
    CutShort = 1,
    UnknownTag = 2,
    WrongLength = 3,
    MalformedTerm = 4,
    BadLabel = 5,
    TermsFull = 6,
    DatedTermsFull = 7,
    ArgumentNotEarlier = 8,
    OtherArgumentCount = 9,
    TermAfterRow = 10,
    RowsFull = 11,
    NoSuchTerm = 12,
    SpanOnLevel = 13,
    BoundPastLimit = 14,
    NoRowToStrike = 15,
    OtherVerdict = 16,
    NotInResult = 17,
    BufferTooShort = 18,
    EverySeatPlaced = 19,
    CodeTooHigh = 20,
    NoCodeToLift = 21,
    NoSuchRow = 22,
    CodesPlaced = 23,
    NoDates = 24,
}

// A refusal: its cause, and the letter of the layer that refuses. The letters are no enum: each engine brings its own.
#[derive(Clone, Copy, Debug, PartialEq, Eq)]
pub struct Fault {
    pub cause: Cause,
    pub layer: char,
}

impl Cause {
    // The number that a refusal shows.
    pub fn number(self) -> u8
        ensures { result ≡ cause_number self }
    {
        self as u8
    }

    // The ground in words, for a person. Those that cannot come up for a sheet are looked up.
    pub fn words(self) -> &'static str
        ensures { result.now ≡ words_of_cause self }
    {
        match self {
            Cause::CutShort => "the bytes that were read end before the field does",
            Cause::UnknownTag => "its tag is none of the letters T, S, E and U",
            Cause::WrongLength => "its length is not one that its tag can have",
            Cause::MalformedTerm => {
                "its kind, form or table letter is wrong, or its letter or an argument is missing"
            }
            Cause::BadLabel => "its label is not 1 to 12 visible characters",
            Cause::TermsFull => "there are 32 terms already",
            Cause::DatedTermsFull => "there are 8 dated terms already",
            Cause::ArgumentNotEarlier => "an argument is not the index of an earlier term",
            Cause::OtherArgumentCount => "its table is in use with the other count of arguments",
            Cause::TermAfterRow => "it is a term, and a row stands before it",
            Cause::RowsFull => "there are 64 rows already",
            Cause::NoSuchTerm => "it names a term that there is not",
            Cause::SpanOnLevel => "it is a span and names a level",
            Cause::BoundPastLimit => "its bound is below -1000000 or above 1000000",
            _ => "see docs/REFUSALS.md",
        }
    }

    // This cause as a refusal of the layer with that letter.
    pub fn in_layer(self, letter: char) -> Fault
        ensures { result ≡ fault_in letter self }
    {
        Fault {
            cause: self,
            layer: letter,
        }
    }
}

impl fmt::Display for Cause {
    ghost output = { λ c. Some (words_of_cause c) };

    fn fmt<W: fmt::Write>(&self, f: &mut fmt::Formatter<W>) -> fmt::Result {
        f.write_str(self.words())
    }
}

impl Error for Cause {}

// The number and the letter of the layer, as programs print them.
impl fmt::Display for Fault {
    ghost output = { λ e. Some (words_of_fault e) };

    fn fmt<W: fmt::Write>(&self, f: &mut fmt::Formatter<W>) -> fmt::Result {
        let number = self.cause.number();
        let layer = self.layer;
        write!(f, "{number} {layer}")
    }
}

impl Error for Fault {}
