// Notes the fields of a sheet in an engine.
ghost use Rattle.std.specs.Prelude.{◌≡◌, MatchResult};
ghost use Rattle.engine.specs.States.{new_state};
ghost use Rattle.parts.specs.Noting.{SheetNoted, StopsAt, WholeNoted, after_field, field_answer, row_stands};
ghost use Rattle.sheet.specs.Fields.{value_of};

use arrayvec::ArrayVec;
use engine::engine::Engine;
use engine::limits::MAX_SEATS;
use sheet::fault::{Cause, Fault};
use sheet::field::Field;
use sheet::fields::{Fields, PlacedField};
use sheet::refusal::Refusal;

// The letter of the layer that takes a whole sheet; no enum, as for every layer.
const LOAD: char = 'L';

// Makes the engine new, notes the terms and rows of the sheet in it, and answers the indices of the dated terms.
// The first fault ends it; the engine is then new.
pub(crate) fn note_sheet<E: Engine>(
    engine: &mut E,
    sheet: &[u8],
) -> Result<ArrayVec<u8, MAX_SEATS>, Refusal>
    ensures notes { SheetNoted E.LETTER sheet.now (E.state engine.new) result }
    ensures keeps { E.setting engine.new ≡ E.setting engine.old }
{
    engine.renew();
    let seats = note_fields(engine, sheet);
    if seats.is_err() {
        engine.renew();
    }
    seats
}

// Notes the fields in a new engine, up to the first that is refused.
fn note_fields<E: Engine>(engine: &mut E, sheet: &[u8]) -> Result<ArrayVec<u8, MAX_SEATS>, Refusal>
    requires { E.state engine.old ≡ new_state }
    ensures notes { MatchResult result
        (λ seats. WholeNoted E.LETTER sheet.now (E.state engine.new) seats.items)
        (λ refusal. StopsAt E.LETTER sheet.now refusal) }
    ensures keeps { E.setting engine.new ≡ E.setting engine.old }
{
    let mut seats = ArrayVec::new();
    // Zero is there without a field.
    seats.push(0);
    // Whether a row has come is a flag, since a term after it is refused only once it comes; terms are counted, since not every
    // field is one.
    let mut terms = 1;
    let mut has_row = false;
    for item in Fields::new(sheet) {
        let PlacedField { place, field, .. } = item?;
        note_field(engine, &field, has_row).map_err(|fault| Refusal { fault, place })?;
        match field {
            Field::Term { term, .. } => {
                if term.is_dated() {
                    seats.push(terms);
                }
                terms += 1;
            }
            Field::Row(_) => has_row = true,
        }
    }
    Ok(seats)
}

// Notes a field. `has_row` says whether a row was noted before: then no term may follow.
fn note_field<E: Engine>(engine: &mut E, field: &Field<'_>, has_row: bool) -> Result<(), Fault>
    requires { has_row ≡ row_stands (E.state engine.old) }
    ensures answers { result ≡ field_answer E.LETTER (E.state engine.old) (value_of field.now) }
    ensures leaves { E.state engine.new ≡ after_field (E.state engine.old) (value_of field.now) }
    ensures keeps { E.setting engine.new ≡ E.setting engine.old }
{
    match *field {
        Field::Term { .. } if has_row => Err(Cause::TermAfterRow.in_layer(LOAD)),
        Field::Term { term, .. } => engine.note_term(term),
        Field::Row(row) => engine.note_row(row),
    }
}
