// A row that an engine holds.
use sheet::row::Row;

// A row that is not active is muted: it is held and does not count. So the mark is a flag, and no `Option` of a row.
#[derive(Clone, Copy, Debug, PartialEq, Eq)]
pub struct Noted {
    pub row: Row,
    pub active: bool,
}
