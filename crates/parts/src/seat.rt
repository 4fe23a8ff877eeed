// A seat in words.
ghost use Rattle.parts.specs.Seats.{seat_line};
ghost use Rattle.std.specs.Prelude.{Some};

use std::fmt;

// A seat: its place among the seats, the index of its term, its code and its date.
#[derive(Clone, Copy, Debug, Default, PartialEq, Eq)]
pub struct Seat {
    pub place: usize,
    pub term: u8,
    pub code: u8,
    pub date: i64,
}

impl fmt::Display for Seat {
    ghost output = { λ s. Some (seat_line s) };

    fn fmt<W: fmt::Write>(&self, f: &mut fmt::Formatter<W>) -> fmt::Result {
        let Seat {
            place,
            term,
            code,
            date,
        } = *self;
        write!(f, "seat {place} term {term} code {code} date {date}")
    }
}
