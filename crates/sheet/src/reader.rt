// The reader: the field at the front of a sheet.
ghost use Rattle.std.specs.Prelude.{◌≡◌, ◌+◌, ◌≤◌, length, drop, IfOk, MatchResult};
ghost use Rattle.sheet.specs.Parsing.{content_in, field_in, field_part, form_at, outcome, parse, remaining, stated_length, term_in};
ghost use Rattle.sheet.specs.RoundTrips.{ReadRight, ReadsAll};

use crate::fault::{Cause, Fault, READER};
use crate::field::Field;
use crate::label::is_label;
use crate::row::Row;
use crate::term::{Form, Kind, Term};

// Reads the field at the front of the sheet, and hands back the bytes after it; the whole sheet where it refuses. That the
// outcome and the bytes are a pair is a rule of the project.
pub fn read_field(sheet: &[u8]) -> (Result<Field<'_>, Fault>, &[u8])
    ensures answer { outcome result.0 ≡ parse sheet.now }
    ensures rest { result.1.now ≡ remaining sheet.now }
    ensures sound { ReadRight sheet.now (outcome result.0) }
    ensures complete { ReadsAll sheet.now (outcome result.0) }
    ensures used { MatchResult result.0
        (λ _. length result.1.now + (3 + stated_length sheet.now) ≡ length sheet.now)
        (λ _. result.1.now ≡ sheet.now) }
{
    read_front(sheet)
}

// The field or the fault, and what is left of the sheet.
fn read_front(sheet: &[u8]) -> (Result<Field<'_>, Fault>, &[u8])
    ensures answer { outcome result.0 ≡ parse sheet.now }
    ensures rest { result.1.now ≡ remaining sheet.now }
{
    match split_field(sheet) {
        Ok((field, rest)) => (Ok(field), rest),
        Err(cause) => (Err(cause.in_layer(READER)), sheet),
    }
}

// The field and the bytes after it.
fn split_field(sheet: &[u8]) -> Result<(Field<'_>, &[u8]), Cause>
    ensures field { field_part result ≡ field_in sheet.now }
    ensures rest { IfOk result (λ p. p.1.now ≡ drop (3 + stated_length sheet.now) sheet.now) }
{
    let [tag, high, low, after @ ..] = sheet else {
        return Err(Cause::CutShort);
    };
    let size = *high as usize * 256 + *low as usize;
    if after.len() < size {
        return Err(Cause::CutShort);
    }
    let field = read_content(*tag, &after[0..size])?;
    Ok((field, &after[size..]))
}

// The form in a term's content.
fn read_form(body: &[u8]) -> Result<Form, Cause>
    requires { 2 ≤ length body.now }
    ensures { result ≡ form_at body.now }
{
    match (body[1] as char, body) {
        ('N', _) => Ok(Form::Name),
        ('1', [_, _, table @ b'A'..=b'Z', argument, ..]) => Ok(Form::One {
            table: *table as char,
            argument: *argument,
        }),
        ('2', [_, _, table @ b'A'..=b'Z', first, second, ..]) => Ok(Form::Two {
            table: *table as char,
            first: *first,
            second: *second,
        }),
        _ => Err(Cause::MalformedTerm),
    }
}

// The content of a term field: kind, form and label.
fn read_term(body: &[u8]) -> Result<Field<'_>, Cause>
    requires { 2 ≤ length body.now }
    ensures { outcome result ≡ term_in body.now }
{
    let kind = Kind::try_from(body[0])?;
    let form = read_form(body)?;
    let label = &body[1 + form.size()..];
    if !is_label(label) {
        return Err(Cause::BadLabel);
    }
    Ok(Field::Term {
        term: Term { kind, form },
        label,
    })
}

// The content of a field with this tag.
fn read_content(tag: u8, body: &[u8]) -> Result<Field<'_>, Cause>
    ensures { outcome result ≡ content_in tag body.now }
{
    match (tag as char, body) {
        ('T', [_, _, ..]) => read_term(body),
        ('S', [left, right, a, b, c, d]) => Ok(Field::Row(Row::Span {
            left: *left,
            right: *right,
            bound: i32::from_be_bytes([*a, *b, *c, *d]),
        })),
        ('E', [left, right]) => Ok(Field::Row(Row::Same {
            left: *left,
            right: *right,
        })),
        ('U', [left, right]) => Ok(Field::Row(Row::Unlike {
            left: *left,
            right: *right,
        })),
        ('T' | 'S' | 'E' | 'U', _) => Err(Cause::WrongLength),
        _ => Err(Cause::UnknownTag),
    }
}
