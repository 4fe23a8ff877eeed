// Entries of tables.
ghost use Rattle.std.specs.Prelude.{◌≡◌, pos};
ghost use Rattle.congruence.specs.Entries.{entry, fits};
ghost use Rattle.congruence.specs.declared.entry.Arguments.TheVariants.{Unary};

// The numbers that a table is asked at: one, or two in their order.
#[derive(Clone, Copy, Debug, PartialEq, Eq)]
pub enum Arguments {
    Unary(i64),
    Binary(i64, i64),
}

// One value of a table: its letter, the numbers that it is asked at, and the answer.
#[derive(Clone, Copy, Debug, PartialEq, Eq)]
pub struct Entry {
    pub table: char,
    pub arguments: Arguments,
    pub answer: i64,
}

// A record to fill a buffer with before entries are written into it.
impl Default for Entry {
    fn default() -> Entry
        ensures { result ≡ entry 65 (Unary (pos 0)) (pos 0) }
    {
        Entry {
            table: 'A',
            arguments: Arguments::Unary(0),
            answer: 0,
        }
    }
}

impl Entry {
    // Whether it is what the table with this letter answers at these numbers.
    pub fn fits(self, table: char, arguments: Arguments) -> bool
        ensures { result ≡ fits table arguments self }
    {
        self.table == table && self.arguments == arguments
    }
}
