// Writes the fields of a sheet back, and compares.
ghost use Rattle.std.specs.Prelude.{◌≡◌, length, Decides};
ghost use Rattle.fieldlist.specs.WritingBack.{Alike, Ended};
ghost use Rattle.sheet.specs.Encoding.{encode};
ghost use Rattle.sheet.specs.Fields.{value_of};

use sheet::field::Field;
use sheet::fields::{Fields, PlacedField};
use sheet::refusal::Refusal;
use sheet::writer::write_field;

// What was read of a whole sheet, and what was written back alike.
#[derive(Clone, Copy, Debug, PartialEq, Eq)]
pub struct Tally {
    pub fields: usize,
    pub bytes: usize,
    pub fields_alike: usize,
    pub bytes_alike: usize,
}

// Writes each field into the buffer, at the place where it stands in the sheet, and compares the two. The buffer is lent and as long
// as the sheet, so nothing is allocated here.
pub(crate) fn write_fields_back(sheet: &[u8], buffer: &mut [u8]) -> Result<Tally, Refusal>
    requires { length buffer.old ≡ length sheet.now }
    ensures { Ended sheet.now buffer.new result }
{
    // Counts of what is read, and no indices: they end with the first refusal.
    let mut fields = 0;
    let mut fields_alike = 0;
    let mut bytes_alike = 0;
    for item in Fields::new(sheet) {
        let PlacedField {
            place,
            bytes,
            field,
        } = item?;
        fields += 1;
        if is_written_alike(&field, bytes, &mut buffer[place..]) {
            fields_alike += 1;
            bytes_alike += bytes.len();
        }
    }
    Ok(Tally {
        fields,
        bytes: sheet.len(),
        fields_alike,
        bytes_alike,
    })
}

// Writes the field at the front of the part, and tells whether just these bytes were written.
fn is_written_alike(field: &Field<'_>, bytes: &[u8], part: &mut [u8]) -> bool
    ensures writes { part.new ≡ (encode (value_of field.now) part.old).buffer }
    ensures compares { Decides result (Alike (encode (value_of field.now) part.old) bytes.now) }
{
    match write_field(field, part) {
        Ok(size) => &part[0..size] == bytes,
        Err(_) => false,
    }
}
