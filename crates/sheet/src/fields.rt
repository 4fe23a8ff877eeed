// The fields of a sheet, one after another.
ghost use Rattle.std.specs.Prelude.{◌≡◌, ◌≤◌, length};
ghost use Rattle.std.specs.Iterator.{at_most};
ghost use Rattle.sheet.specs.Left.{IsLeft};

use crate::field::Field;
use crate::reader::read_field;
use crate::refusal::Refusal;

// A field with the byte where it starts, and its bytes.
#[derive(Clone, Copy, Debug, PartialEq, Eq)]
pub struct PlacedField<'a> {
    pub place: usize,
    pub bytes: &'a [u8],
    pub field: Field<'a>,
}

// Goes over the fields up to the last byte, or to the first that is refused: the refusal is then the last item.
#[derive(Drop)]
pub struct Fields<'a> {
    sheet: &'a [u8],
    rest: &'a [u8],
    ghost within: { length rest.now ≤ length sheet.now },
    ghost left: { IsLeft sheet.now rest.now },
}

impl<'a> Fields<'a> {
    pub fn new(sheet: &'a [u8]) -> Fields<'a>
        ensures sheet { result.sheet.now ≡ sheet.now }
        ensures rest { result.rest.now ≡ sheet.now }
    {
        Fields { sheet, rest: sheet }
    }
}

impl<'a> Iterator for Fields<'a> {
    ghost use Rattle.sheet.specs.Walks.{Step};

    type Item = Result<PlacedField<'a>, Refusal>;

    ghost next_gives = { Step };

    ghost remaining = { λ a. at_most (length a.rest.now) };

    fn next(&mut self) -> Option<Result<PlacedField<'a>, Refusal>> {
        if self.rest.is_empty() {
            return None;
        }
        let place = self.sheet.len() - self.rest.len();
        let (outcome, after) = read_field(self.rest);
        match outcome {
            Ok(field) => {
                let bytes = &self.rest[..self.rest.len() - after.len()];
                self.rest = after;
                Some(Ok(PlacedField {
                    place,
                    bytes,
                    field,
                }))
            }
            Err(fault) => {
                self.rest = &[];
                Some(Err(Refusal { fault, place }))
            }
        }
    }
}
