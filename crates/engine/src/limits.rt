// How much an engine, a draft and a bench hold at most, and the limits of a bound.

// Terms, zero included.
pub const MAX_TERMS: usize = 32;

// Dated terms, zero included.
pub const MAX_SEATS: usize = 8;

pub const MAX_ROWS: usize = 64;

// A span's bound lies between this and its opposite.
pub const MAX_BOUND: i32 = 1_000_000;
