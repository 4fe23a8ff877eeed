// What a client can choose.

use sheet::row::Row;

// At an open bench.
#[derive(Clone, Copy, Debug, PartialEq, Eq)]
pub enum OpenChoice {
    Enter(Row),
    Strike,
    Judge,
    Stop,
}

// While a result is shown.
#[derive(Clone, Copy, Debug, PartialEq, Eq)]
pub enum ShownChoice {
    Reopen,
    Stop,
}
