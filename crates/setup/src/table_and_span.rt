// The set-up with the table engine and the span engine.
ghost use Rattle.std.specs.Prelude.{◌≡◌};
ghost use Rattle.bench.specs.Benches.{rows_at, terms_at};
ghost use Rattle.setup.specs.Parts.{found_in, rows_in, set_up_in, terms_in};
ghost use Rattle.setup.specs.Solutions.{SolvedTruly};

use crate::solve::solve;
use crate::solved::Solved;
use bench::bench::Bench;
use span::span::Span;
use table::table::Table;

// `solve` with the table engine and the span engine. A clash is found exactly where no whole numbers and tables make every standing row true, and otherwise the numbers of
// the set-up, with its entries as tables, make every standing row true.
pub fn solve_with_table_and_span(bench: Bench<Table, Span>) -> Solved<Span>
    ensures solves { SolvedTruly (terms_at bench) (rows_at bench) (found_in result) (set_up_in result) }
    ensures terms { terms_in result ≡ terms_at bench }
    ensures rows { rows_in result ≡ rows_at bench }
{
    solve(bench)
}
