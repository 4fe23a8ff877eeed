// A field: one entry of a sheet, a term with its label or a row.
use crate::row::Row;
use crate::term::Term;

// The label is borrowed: of a field that was read it is a part of the sheet.
#[derive(Clone, Copy, Debug, PartialEq, Eq)]
pub enum Field<'a> {
    Term { term: Term, label: &'a [u8] },
    Row(Row),
}
