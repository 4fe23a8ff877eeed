// The numbers of the terms, by their groups.
ghost use Rattle.std.specs.Prelude.{◌≡◌, ◌<◌, ◌≤◌, length, All};
ghost use Rattle.engine.specs.Limits.{max_terms};
ghost use Rattle.model.specs.Numbering.{greatest_date, group_date, numbers_of};
ghost use Rattle.setup.specs.Groups.{DatesAtMost, NamedByLeast, SeatsAmong};

use arrayvec::ArrayVec;
use engine::limits::MAX_TERMS;

// The number of each term, by the dates of the seats and the groups of the terms, each of which goes by its least term. A group with a seat has that
// seat's date; each other one has the next number past the greatest date.
pub(crate) fn number_terms(seats: &[u8], dates: &[i64], groups: &[u8]) -> ArrayVec<i64, MAX_TERMS>
    requires few { length groups.now ≤ max_terms }
    requires named { NamedByLeast groups.now }
    requires seats { SeatsAmong groups.now seats.now }
    requires within { DatesAtMost dates.now }
    ensures { result.items ≡ numbers_of seats.now dates.now groups.now }
{
    let mut numbers = ArrayVec::new();
    let mut next = greatest_date(dates) + 1;
    for (term, group) in groups.iter().enumerate() {
        let number = match group_date(groups, seats, dates, *group) {
            Some(date) => date,
            // Its least term has the number already.
            None if (*group as usize) < term => numbers[*group as usize],
            None => {
                let number = next;
                next += 1;
                number
            }
        };
        numbers.push(number);
    }
    numbers
}

// The date of a group: that of the first seat in it.
#[tactic(auto, using(crate::proofs::Numbering::seat_passed))]
fn group_date(groups: &[u8], seats: &[u8], dates: &[i64], group: u8) -> Option<i64>
    requires { SeatsAmong groups.now seats.now }
    ensures { result ≡ group_date groups.now seats.now dates.now group }
{
    for (place, seat) in seats.iter().enumerate() {
        if groups[*seat as usize] == group {
            return dates.get(place).copied();
        }
    }
    None
}

// The greatest date; zero has one, which is 0.
fn greatest_date(dates: &[i64]) -> i64
    ensures { result ≡ greatest_date dates.now }
{
    let mut greatest = 0;
    for date in dates {
        greatest = greatest.max(*date);
    }
    greatest
}
