// Fields and tallies in words.
ghost use Rattle.fieldlist.specs.Lines.{field_line, text_of_label, words_of_tally};
ghost use Rattle.sheet.specs.Fields.{value_of};
ghost use Rattle.std.specs.Prelude.{Some};

use crate::write_back::Tally;
use sheet::field::Field;
use std::fmt;

// A field with the byte where it starts and its index: a line of the listing.
#[derive(Clone, Copy, Debug, PartialEq, Eq)]
pub struct Line<'a> {
    pub place: usize,
    pub index: usize,
    pub field: Field<'a>,
}

// The bytes of a label, each as the character with that code. A slice cannot be printed by itself.
#[derive(Clone, Copy)]
struct LabelText<'a>(&'a [u8]);

impl fmt::Display for Line<'_> {
    ghost output = { λ l. Some (field_line l.place l.index (value_of l.field)) };

    fn fmt<W: fmt::Write>(&self, f: &mut fmt::Formatter<W>) -> fmt::Result {
        let place = self.place;
        let index = self.index;
        match self.field {
            Field::Term { term, label } => {
                let kind = term.kind;
                let form = term.form;
                let label = LabelText(label);
                write!(
                    f,
                    "byte {place}: term {index} is {kind}, {form}, labelled {label}"
                )
            }
            Field::Row(row) => write!(f, "byte {place}: row {index} says {row}"),
        }
    }
}

impl fmt::Display for LabelText<'_> {
    ghost output = { λ l. Some (text_of_label l.0.now) };

    fn fmt<W: fmt::Write>(&self, f: &mut fmt::Formatter<W>) -> fmt::Result {
        for byte in self.0 {
            f.write_char(*byte as char)?;
        }
        Ok(())
    }
}

// The last line of a listing.
impl fmt::Display for Tally {
    ghost output = { λ t. Some (words_of_tally t) };

    fn fmt<W: fmt::Write>(&self, f: &mut fmt::Formatter<W>) -> fmt::Result {
        let Tally {
            fields,
            bytes,
            fields_alike,
            bytes_alike,
        } = *self;
        write!(
            f,
            "{fields} fields and {bytes} bytes read, {fields_alike} fields and {bytes_alike} bytes written back alike"
        )
    }
}
