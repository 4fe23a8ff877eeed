// The constraints of an engine as edges.
ghost use Rattle.std.specs.List.{flat_map};
ghost use Rattle.std.specs.Prelude.{◌≡◌, ◌++◌};
ghost use Rattle.engine.specs.EachPair.{with_each};
ghost use Rattle.engine.specs.States.{active_rows};
ghost use Rattle.span.specs.Constraints.{edge, order_edges, pair_edges, row_edges};
ghost use Rattle.span.specs.Lists.{FitInList};

use arrayvec::ArrayVec;
use engine::noted::Noted;
use engine::placed::Placed;
use graph::Edge;
use sheet::row::Row;

// Room for an edge of each of 64 rows, and for two edges of each of 28 pairs of seats.
pub(crate) type EdgeList = ArrayVec<Edge, 128>;

// Numbers are whole, so the number of a lower rank is smaller by 1 at least.
const GAP: i32 = -1;

// The edge that says that the number of seat a is at most that of seat b plus the weight.
fn edge_between(a: Placed, b: Placed, weight: i32) -> Edge
    ensures { result ≡ edge a.term b.term weight }
{
    Edge {
        to: a.term,
        from: b.term,
        weight,
    }
}

// An edge for each active span row.
pub(crate) fn list_rows(rows: &[Noted], list: &mut EdgeList)
    requires { FitInList (list.old.items ++ row_edges (active_rows rows.now)) }
    ensures { list.new.items ≡ list.old.items ++ row_edges (active_rows rows.now) }
{
    for noted in rows {
        if let Noted {
            row: Row::Span { left, right, bound },
            active: true,
        } = *noted
        {
            list.push(Edge {
                to: left,
                from: right,
                weight: bound,
            });
        }
    }
}

// The edges between two placed seats.
fn list_pair(a: Placed, b: Placed, list: &mut EdgeList)
    requires { FitInList (list.old.items ++ pair_edges (a, b)) }
    ensures { list.new.items ≡ list.old.items ++ pair_edges (a, b) }
{
    if a.rank < b.rank {
        list.push(edge_between(a, b, GAP));
    } else if b.rank < a.rank {
        list.push(edge_between(b, a, GAP));
    } else {
        list.push(edge_between(a, b, 0));
        list.push(edge_between(b, a, 0));
    }
}

// The edges between a placed seat and each of the others.
fn list_pairs(first: Placed, others: &[Placed], list: &mut EdgeList)
    requires { FitInList (list.old.items ++ flat_map pair_edges (with_each first others.now)) }
    ensures { list.new.items ≡ list.old.items ++ flat_map pair_edges (with_each first others.now) }
{
    for other in others {
        list_pair(first, *other, list);
    }
}

// The edges between each placed seat and each later one.
pub(crate) fn list_order(placed: &[Placed], list: &mut EdgeList)
    requires { FitInList (list.old.items ++ order_edges placed.now) }
    ensures { list.new.items ≡ list.old.items ++ order_edges placed.now }
{
    let mut rest = placed;
    while let [first, others @ ..] = rest {
        list_pairs(*first, others, list);
        rest = others;
    }
}
