// The writer: one field into the caller's buffer.
ghost use Rattle.std.specs.Prelude.{◌≡◌, ◌++◌};
ghost use Rattle.sheet.specs.Encoding.{encode, leaving, put, written};
ghost use Rattle.sheet.specs.Fields.{value_of, row_field, term_field};
ghost use Rattle.sheet.specs.RoundTrips.{ReadBack, RowFits};

use crate::fault::{Cause, Fault, READER};
use crate::field::Field;
use crate::label::is_label;
use crate::layer::InLayer;
use crate::row::Row;
use crate::term::{Form, Term};

// Writes the field at the front of the buffer, which is lent as to a reader of bytes since nothing is allocated, and answers its length. The bytes after it stay as they were, and where it refuses the
// whole buffer does.
pub fn write_field(field: &Field<'_>, out: &mut [u8]) -> Result<usize, Fault>
    ensures answer { result ≡ (encode (value_of field.now) out.old).answer }
    ensures buffer { out.new ≡ (encode (value_of field.now) out.old).buffer }
    ensures back { ReadBack (value_of field.now) out.old out.new result }
{
    write_value(field, out).in_layer(READER)
}

fn write_value(field: &Field<'_>, out: &mut [u8]) -> Result<usize, Cause>
    ensures leaves { leaving result out.new ≡ written (value_of field.now) out.old }
    ensures fits { RowFits (value_of field.now) }
{
    match *field {
        Field::Term { term, label } => write_term(term, label, out),
        Field::Row(row) => write_row(row, out),
    }
}

// A term is written only with a table letter from A to Z and a proper label.
fn write_term(term: Term, label: &[u8], out: &mut [u8]) -> Result<usize, Cause>
    ensures { leaving result out.new ≡ written (term_field term label.now) out.old }
{
    if !term.form.is_well_lettered() {
        return Err(Cause::MalformedTerm);
    }
    if !is_label(label) {
        return Err(Cause::BadLabel);
    }
    let size = (1 + term.form.size() + label.len()) as u8;
    let kind = u8::from(term.kind);
    match term.form {
        Form::Name => put_bytes(&[b'T', 0, size, kind, b'N'], label, out),
        Form::One { table, argument } => put_bytes(
            &[b'T', 0, size, kind, b'1', table as u8, argument],
            label,
            out,
        ),
        Form::Two {
            table,
            first,
            second,
        } => put_bytes(
            &[b'T', 0, size, kind, b'2', table as u8, first, second],
            label,
            out,
        ),
    }
}

fn write_row(row: Row, out: &mut [u8]) -> Result<usize, Cause>
    ensures leaves { leaving result out.new ≡ written (row_field row) out.old }
    ensures fits { RowFits (row_field row) }
{
    match row {
        Row::Span { left, right, bound } => put_bytes(
            &[b'S', 0, 6, left, right],
            &bound.to_be_bytes(),
            out,
        ),
        Row::Same { left, right } => put_bytes(&[b'E', 0, 2], &[left, right], out),
        Row::Unlike { left, right } => put_bytes(&[b'U', 0, 2], &[left, right], out),
    }
}

// Puts two runs of bytes, one after the other, at the front of the buffer.
fn put_bytes(head: &[u8], tail: &[u8], out: &mut [u8]) -> Result<usize, Cause>
    ensures { leaving result out.new ≡ put (head.now ++ tail.now) out.old }
{
    let start = head.len();
    if out.len() < start || out.len() - start < tail.len() {
        return Err(Cause::BufferTooShort);
    }
    let end = start + tail.len();
    out[0..start].copy_from_slice(head);
    out[start..end].copy_from_slice(tail);
    Ok(end)
}
