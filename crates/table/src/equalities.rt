// Equalities that are given: those of the active same rows, and those of the blocks.
ghost use Rattle.std.specs.Prelude.{◌≡◌, ◌<◌};
ghost use Rattle.congruence.specs.Classes.{merge_all};
ghost use Rattle.engine.specs.EachPair.{with_each};
ghost use Rattle.engine.specs.Limits.{max_terms};
ghost use Rattle.engine.specs.States.{active_rows};
ghost use Rattle.table.specs.Apart.{RowsBelow, SeatsBelow};
ghost use Rattle.table.specs.Pairs.{block_pairs, equated_terms, same_pairs};

use crate::classes::Classes;
use engine::noted::Noted;
use engine::placed::Placed;
use sheet::row::Row;

// Makes one the classes of the two terms of each active same row.
pub(crate) fn merge_rows(rows: &[Noted], classes: &mut Classes)
    requires { RowsBelow max_terms rows.now }
    ensures { classes.new.least ≡ merge_all (same_pairs (active_rows rows.now)) classes.old.least }
{
    for noted in rows {
        if let Noted {
            row: Row::Same { left, right },
            active: true,
        } = *noted
        {
            classes.merge(left, right);
        }
    }
}

// Makes one the classes of the seats of each block.
pub(crate) fn merge_blocks(placed: &[Placed], classes: &mut Classes)
    requires { SeatsBelow max_terms placed.now }
    ensures { classes.new.least ≡ merge_all (block_pairs placed.now) classes.old.least }
{
    let mut rest = placed;
    while let [first, others @ ..] = rest {
        merge_block_of(*first, others, classes);
        rest = others;
    }
}

// Makes one the classes of a seat and of each of the others that is in its block.
fn merge_block_of(seat: Placed, others: &[Placed], classes: &mut Classes)
    requires here { seat.term < max_terms }
    requires there { SeatsBelow max_terms others.now }
    ensures { classes.new.least ≡ merge_all (equated_terms (with_each seat others.now)) classes.old.least }
{
    for other in others {
        if other.rank == seat.rank {
            classes.merge(seat.term, other.term);
        }
    }
}
