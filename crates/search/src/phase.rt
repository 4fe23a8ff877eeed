// What the search does next.

// It descends to the next seat, or rests: it has found the first arrangement, or there is none.
#[derive(Clone, Copy, Debug, PartialEq, Eq)]
pub(crate) enum Phase {
    Descend,
    Found,
    Exhausted,
}
