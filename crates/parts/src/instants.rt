// Whether an engine that dates can meet a sheet.
ghost use Rattle.std.specs.Prelude.{◌≡◌};
ghost use Rattle.parts.specs.Diagnoses.{InstantsDiagnosed};
ghost use Rattle.parts.specs.Seats.{seats_with};

use crate::note_sheet::note_sheet;
use crate::place_first::place_first;
use crate::seat::Seat;
use arrayvec::ArrayVec;
use engine::dating::Dating;
use engine::engine::Engine;
use engine::limits::MAX_SEATS;
use sheet::refusal::Refusal;

// Notes the sheet in the engine, places the seats by the first arrangement that is allowed, and dates them. The answer is nothing where
// no arrangement is allowed.
pub(crate) fn place_instants<E: Dating>(
    engine: &mut E,
    sheet: &[u8],
) -> Result<Option<ArrayVec<Seat, MAX_SEATS>>, Refusal>
    ensures tells { let made_with = E.setting engine.old in
        InstantsDiagnosed (E.rule made_with) E.counts (E.picks made_with) E.LETTER sheet.now (E.state engine.new) result }
    ensures keeps { E.setting engine.new ≡ E.setting engine.old }
{
    let terms = note_sheet(engine, sheet)?;
    let Some(codes) = place_first(engine) else {
        return Ok(None);
    };
    match engine.dates() {
        Ok(dates) => Ok(Some(list_seats(&terms, codes.as_slice(), dates.as_slice()))),
        // It does not come to this: every seat is placed, and the arrangement is allowed.
        Err(_) => Ok(None),
    }
}

// The seats with these terms, codes and dates, in the order of their places.
fn list_seats(
    terms: &ArrayVec<u8, MAX_SEATS>,
    codes: &[u8],
    dates: &[i64],
) -> ArrayVec<Seat, MAX_SEATS>
    ensures { result.items ≡ seats_with terms.now.items codes.now dates.now }
{
    let mut seats = ArrayVec::new();
    for (place, ((term, code), date)) in terms.iter().zip(codes).zip(dates).enumerate() {
        seats.push(Seat {
            place,
            term: *term,
            code: *code,
            date: *date,
        });
    }
    seats
}
