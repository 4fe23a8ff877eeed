// A client at a bench with the table engine and the span engine.
ghost use Rattle.std.specs.Prelude.{◌≡◌};
ghost use Rattle.engine.specs.Rules.{TableAllowed, SpanAllowed};
ghost use Rattle.bench.specs.Benches.{declared};
ghost use Rattle.runs.specs.Law.{Served, ChoicesDetermine};
ghost use Rattle.runs.specs.Judging.{JudgedTruly};
ghost use Rattle.runs.specs.Stages.{status_of, terms_in};

use crate::client::Client;
use crate::run_client::run_client;
use crate::stage::Stage;
use bench::draft::Draft;
use span::span::Span;
use table::table::Table;

// The same call for these two engines. A clash is told exactly where no whole numbers and tables make every standing row true; nothing is
// asked of the draft, the engines or the client.
pub fn run_with_table_and_span<C: Client>(
    draft: Draft,
    table: Table,
    span: Span,
    client: &mut C,
    limit: u64,
) -> Stage<Table, Span>
    ensures law { Served (JudgedTruly TableAllowed SpanAllowed (declared draft)) (declared draft)
        (C.history client.old) (C.history client.new) (C.stopped client.new) limit (status_of result) }
    ensures determined { ChoicesDetermine (JudgedTruly TableAllowed SpanAllowed (declared draft)) (declared draft) }
    ensures terms { terms_in result ≡ declared draft }
{
    run_client(draft, table, span, client, limit)
}
