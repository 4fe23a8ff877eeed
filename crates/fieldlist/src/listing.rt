// The lines of a sheet's fields.
ghost use Rattle.std.specs.Prelude.{◌≡◌, IfOk, string_bytes};
ghost use Rattle.fieldlist.specs.Listing.{Listing};

use crate::words::Line;
use sheet::field::Field;
use sheet::fields::{Fields, PlacedField};
use std::alloc::{AllocError, Global};

// A line for each field, up to the end or to the first that is refused.
pub(crate) fn list_fields(heap: Global, sheet: &[u8]) -> Result<String, AllocError>
    ensures { IfOk result (λ text. Listing sheet.now (string_bytes text)) }
{
    let mut text = String::new(heap);
    // Terms and rows are counted apart, so neither count is the index of the item.
    let mut terms = 0;
    let mut rows = 0;
    for item in Fields::new(sheet) {
        let Ok(PlacedField { place, field, .. }) = item else {
            return Ok(text);
        };
        // Term 0 is zero and has no field.
        let index = match field {
            Field::Term { .. } => {
                terms += 1;
                terms
            }
            Field::Row(_) => {
                rows += 1;
                rows - 1
            }
        };
        let line = Line {
            place,
            index,
            field,
        };
        let line = format!(in heap; "{line}\n")?;
        text.push_str(line.as_str())?;
    }
    Ok(text)
}
