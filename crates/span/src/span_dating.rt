// The span engine's dates.
ghost use Rattle.std.specs.Prelude.{◌≡◌, ◌≤◌, ◌-ℤ◌, length, All};
ghost use Rattle.engine.specs.Dates.{GreatestDates};
ghost use Rattle.engine.specs.Limits.{max_seats};
ghost use Rattle.graph.specs.Graph.{at};
ghost use Rattle.span.specs.Dating.{InLimits, counts_spans, from_zero};
ghost use Rattle.engine.proofs.Laws.{same_greatest_dates};

use crate::span::Span;
use arrayvec::ArrayVec;
use engine::dating::Dating;
use engine::engine::Engine;
use engine::limits::{MAX_SEATS, MAX_TERMS};
use sheet::fault::{Cause, Fault};

// The distance of a term, counted from zero's.
fn date_of(term: u8, distances: &[i64; MAX_TERMS]) -> i64
    requires zero { InLimits distances.now 0 }
    requires low { InLimits distances.now term }
    ensures { result ≡ at distances.now term -ℤ at distances.now 0 }
{
    distances[term as usize] - distances[0]
}

// The distance of each seat's term, counted from zero's.
fn dates_from_distances(seats: &[u8], distances: &[i64; MAX_TERMS]) -> ArrayVec<i64, MAX_SEATS>
    requires few { length seats.now ≤ max_seats }
    requires zero { InLimits distances.now 0 }
    requires each { All (InLimits distances.now) seats.now }
    ensures { result.items ≡ from_zero distances.now seats.now }
{
    let mut dates = ArrayVec::new();
    for term in seats {
        dates.push(date_of(*term, distances));
    }
    dates
}

// It counts the span rows.
impl Dating for Span {
    ghost counts = { λ k. counts_spans k };

    ghost picks = { λ _ ts rows codes dates. GreatestDates ts rows codes dates };

    ghost once = { λ n ts rows codes a b x y. same_greatest_dates ts rows codes a b x y };

    fn dates(&self) -> Result<ArrayVec<i64, MAX_SEATS>, Fault> {
        let seats = self.held.seats();
        match self.shortest_distances() {
            Some(distances) if self.held.codes().len() == seats.len() => {
                Ok(dates_from_distances(seats, &distances))
            }
            _ => Err(Cause::NoDates.in_layer(Self::LETTER)),
        }
    }
}
