// What is to be apart: the terms of each active unlike row, and seats of different blocks.
ghost use Rattle.std.specs.List.{list_all};
ghost use Rattle.std.specs.Prelude.{◌≡◌, ◌<◌};
ghost use Rattle.engine.specs.EachPair.{with_each};
ghost use Rattle.engine.specs.Limits.{max_terms};
ghost use Rattle.engine.specs.States.{active_rows};
ghost use Rattle.table.specs.Apart.{RowsBelow, SeatsBelow, blocks_apart, rows_apart, two_apart};

use crate::classes::Classes;
use engine::noted::Noted;
use engine::placed::Placed;
use sheet::row::Row;

// Whether the two terms of each active unlike row are in different classes.
pub(crate) fn rows_apart(rows: &[Noted], classes: &Classes) -> bool
    requires { RowsBelow max_terms rows.now }
    ensures { result ≡ rows_apart classes.now.least (active_rows rows.now) }
{
    for noted in rows {
        if let Noted {
            row: Row::Unlike { left, right },
            active: true,
        } = *noted
            && classes.in_one_class(left, right)
        {
            return false;
        }
    }
    true
}

// Whether seats of different blocks are in different classes.
pub(crate) fn blocks_apart(placed: &[Placed], classes: &Classes) -> bool
    requires { SeatsBelow max_terms placed.now }
    ensures { result ≡ blocks_apart classes.now.least placed.now }
{
    let mut rest = placed;
    while let [first, others @ ..] = rest {
        if !seat_apart(*first, others, classes) {
            return false;
        }
        rest = others;
    }
    true
}

// Whether a seat is in another class than each of the others that is not in its block.
fn seat_apart(seat: Placed, others: &[Placed], classes: &Classes) -> bool
    requires here { seat.term < max_terms }
    requires there { SeatsBelow max_terms others.now }
    ensures { result ≡ list_all (two_apart classes.now.least) (with_each seat others.now) }
{
    for other in others {
        if other.rank != seat.rank && classes.in_one_class(seat.term, other.term) {
            return false;
        }
    }
    true
}
