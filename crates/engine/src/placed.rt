// Seats that are placed, each with its rank.
ghost use Rattle.std.specs.List.{zip};
ghost use Rattle.std.specs.Prelude.{◌≡◌, ◌≤◌, map, length};
ghost use Rattle.engine.specs.Limits.{max_seats};
ghost use Rattle.engine.specs.Placing.{placed_at};

use crate::limits::MAX_SEATS;
use arrayvec::ArrayVec;

// A seat that is placed, by its term and its rank.
#[derive(Clone, Copy, Debug, PartialEq, Eq, Default)]
pub struct Placed {
    pub term: u8,
    pub rank: u8,
}

// Each seat that has a rank, with it. The seats past the last rank are not placed.
pub(crate) fn place_seats(seats: &[u8], ranks: &[u8]) -> ArrayVec<Placed, MAX_SEATS>
    requires { length seats.now ≤ max_seats }
    ensures { result.items ≡ map placed_at (zip seats.now ranks.now) }
{
    let mut placed = ArrayVec::new();
    for (&term, &rank) in seats.iter().zip(ranks) {
        placed.push(Placed { term, rank });
    }
    placed
}
