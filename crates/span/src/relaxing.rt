// Bellman and Ford's rounds over the edges.
ghost use Rattle.std.specs.Prelude.{◌≡◌, ◌≤◌, if◌then◌else◌, Some, None};
ghost use Rattle.graph.specs.Claims.{after};
ghost use Rattle.graph.specs.Graph.{Within, zeros, is_stable};
ghost use Rattle.span.specs.Lists.{FitInList};

use engine::limits::MAX_TERMS;
use graph::Edge;

// Lowers distances, from 0 each, along the edges, round after round, until no edge can lower one.
// None where one still can after `limit` rounds.
pub(crate) fn relax_rounds(edges: &[Edge], limit: usize) -> Option<[i64; MAX_TERMS]>
    requires within { Within 32 edges.now }
    requires few { FitInList edges.now }
    requires short { limit ≤ 8 }
    ensures { let distances = after 32 limit edges.now in
        result ≡ (if is_stable edges.now distances then Some distances else None) }
{
    let mut distances = [0; MAX_TERMS];
    if lower_distances(edges, &mut distances, limit) {
        Some(distances)
    } else {
        None
    }
}

// The rounds, on distances that are lent: where they are an array of this function, the compiler stores a distance at each edge, lowered
// or not, and an open takes up to 1.4 times as long. False where an edge can still lower one after `limit` rounds. The flag serves this
// call alone. Two loops that a label leaves: a rule of the project.
fn lower_distances(edges: &[Edge], distances: &mut [i64; MAX_TERMS], limit: usize) -> bool
    requires within { Within 32 edges.now }
    requires few { FitInList edges.now }
    requires short { limit ≤ 8 }
    requires start { distances.old ≡ zeros 32 }
    ensures made { distances.new ≡ after 32 limit edges.now }
    ensures told { result ≡ is_stable edges.now (after 32 limit edges.now) }
{
    let mut stable = false;
    'rounds: for round in 0..=limit {
        let mut lowered = false;
        for edge in edges {
            let through = distances[edge.from as usize] + i64::from(edge.weight);
            if through < distances[edge.to as usize] {
                // Too much is lowered: after so many rounds only a negative cycle goes on lowering.
                if round == limit {
                    break 'rounds;
                }
                distances[edge.to as usize] = through;
                lowered = true;
            }
        }
        if !lowered {
            stable = true;
            break 'rounds;
        }
    }
    stable
}
