// What is asked of rows: the terms that they name, and a bound within its limits.
ghost use Rattle.std.specs.Prelude.{◌≡◌, ℕ};
ghost use Rattle.engine.specs.Rows.{bound_past_limit, is_span_on_level, terms_below};

use crate::limits::MAX_BOUND;
use crate::terms::is_dated_at;
use sheet::row::Row;
use sheet::term::Term;

// Whether both terms are among the first n.
pub(crate) fn has_terms_below(row: Row, n: usize) -> bool
    ensures { result ≡ terms_below n row }
{
    match row {
        Row::Span { left, right, .. } | Row::Same { left, right } | Row::Unlike { left, right } =>
            (left as usize) < n && (right as usize) < n,
    }
}

// Whether the row is a span with a level in it.
pub(crate) fn is_span_on_level(row: Row, terms: &[Term]) -> bool
    ensures { result ≡ is_span_on_level terms.now row }
{
    match row {
        Row::Span { left, right, .. } => !(is_dated_at(terms, left) && is_dated_at(terms, right)),
        Row::Same { .. } | Row::Unlike { .. } => false,
    }
}

// Whether the row is a span with a bound past its limits.
pub(crate) fn is_bound_past_limit(row: Row) -> bool
    ensures { result ≡ bound_past_limit row }
{
    match row {
        Row::Span { bound, .. } => !(-MAX_BOUND..=MAX_BOUND).contains(&bound),
        Row::Same { .. } | Row::Unlike { .. } => false,
    }
}
