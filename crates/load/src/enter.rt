// The rows of a sheet, entered at a bench.
ghost use Rattle.std.specs.Prelude.{◌≡◌, ◌<◌, [], ◌∷◌, true, Err, IfOk, MatchResult, length};
ghost use Rattle.engine.specs.Terms.{zero_term};
ghost use Rattle.bench.specs.Benches.{rows_at, terms_at};
ghost use Rattle.sheet.specs.Fields.{value_of};
ghost use Rattle.sheet.specs.Parsing.{parse};
ghost use Rattle.load.specs.Entering.{FieldTaken, RowStandsFor, contents_at};
ghost use Rattle.load.specs.Loading.{StopsAt, WholeSheet, field_answer, front_answer, with_field};
ghost use Rattle.load.specs.TermFields.{TermsDeclared, begins_term};

use bench::bench::Bench;
use engine::engine::Engine;
use sheet::fault::{Cause, Fault};
use sheet::field::Field;
use sheet::reader::read_field;
use sheet::refusal::Refusal;

// The letter of the layer that takes a whole sheet.
const LOAD: char = 'L';

// Enters the rows that are left of the sheet behind its terms. The first fault ends it.
pub(crate) fn enter_rows<F: Engine, S: Engine>(
    bench: &mut Bench<F, S>,
    sheet: &[u8],
    left: &[u8],
) -> Result<(), Refusal>
    requires terms { TermsDeclared sheet.now (zero_term ∷ []) left.now (terms_at bench.old) }
    requires no_row { rows_at bench.old ≡ [] }
    ensures enters { MatchResult result
        (λ _. WholeSheet sheet.now (terms_at bench.new) (rows_at bench.new))
        (λ refusal. StopsAt sheet.now refusal) }
    ensures engines { (bench.new.first ≡ bench.old.first) × (bench.new.second ≡ bench.old.second) }
{
    let mut left = left;
    while !left.is_empty() {
        match enter_front(bench, left) {
            Ok(after) => left = after,
            Err(fault) => {
                let place = sheet.len() - left.len();
                return Err(Refusal { fault, place });
            }
        }
    }
    Ok(())
}

// Enters the row whose field the bytes begin with, and answers the bytes behind it. A row stands before any term that is left, since the
// terms at the front were all declared.
fn enter_front<'a, F: Engine, S: Engine>(
    bench: &mut Bench<F, S>,
    bytes: &'a [u8],
) -> Result<&'a [u8], Fault>
    requires { begins_term bytes.now ≡ true → 0 < length (rows_at bench.old) }
    ensures enters { MatchResult result
        (λ rest. FieldTaken bytes.now (contents_at bench.old) rest.now (contents_at bench.new))
        (λ fault. front_answer (contents_at bench.old) (parse bytes.now) ≡ Err fault) }
    ensures engines { (bench.new.first ≡ bench.old.first) × (bench.new.second ≡ bench.old.second) }
{
    let (outcome, after) = read_field(bytes);
    let field = outcome?;
    enter_field(bench, &field)?;
    Ok(after)
}

// Enters a row. A term is refused.
fn enter_field<F: Engine, S: Engine>(
    bench: &mut Bench<F, S>,
    field: &Field<'_>,
) -> Result<(), Fault>
    requires { RowStandsFor (contents_at bench.old) (value_of field.now) }
    ensures answers { result ≡ field_answer (contents_at bench.old) (value_of field.now) }
    ensures leaves { IfOk result (λ _. contents_at bench.new ≡ with_field (contents_at bench.old) (value_of field.now)) }
    ensures engines { (bench.new.first ≡ bench.old.first) × (bench.new.second ≡ bench.old.second) }
{
    match *field {
        Field::Term { .. } => Err(Cause::TermAfterRow.in_layer(LOAD)),
        Field::Row(row) => bench.enter(row),
    }
}
