// Why a term or a row is refused. The tests stand in the order in which they are made.
ghost use Rattle.std.specs.Prelude.{◌≡◌, ℕ};
ghost use Rattle.engine.specs.Refusals.{answer_of, row_refusal, term_refusal};

use crate::limits::{MAX_ROWS, MAX_SEATS, MAX_TERMS};
use crate::rows::{has_terms_below, is_bound_past_limit, is_span_on_level};
use crate::terms::{any_count_differs, count_seats, has_arguments_below};
use sheet::fault::Cause;
use sheet::row::Row;
use sheet::term::Term;

// Whether the terms can take one more.
pub fn check_term(terms: &[Term], term: Term) -> Result<(), Cause>
    ensures { result ≡ answer_of (term_refusal terms.now term) }
{
    if !term.form.is_well_lettered() {
        return Err(Cause::MalformedTerm);
    }
    if terms.len() >= MAX_TERMS {
        return Err(Cause::TermsFull);
    }
    if term.is_dated() && count_seats(terms) >= MAX_SEATS {
        return Err(Cause::DatedTermsFull);
    }
    if !has_arguments_below(term.form, terms.len()) {
        return Err(Cause::ArgumentNotEarlier);
    }
    if any_count_differs(term.form, terms) {
        return Err(Cause::OtherArgumentCount);
    }
    Ok(())
}

// Whether a row can follow `count` rows over these terms.
pub fn check_row(terms: &[Term], count: usize, row: Row) -> Result<(), Cause>
    ensures { result ≡ answer_of (row_refusal terms.now count row) }
{
    if count >= MAX_ROWS {
        return Err(Cause::RowsFull);
    }
    if !has_terms_below(row, terms.len()) {
        return Err(Cause::NoSuchTerm);
    }
    if is_span_on_level(row, terms) {
        return Err(Cause::SpanOnLevel);
    }
    if is_bound_past_limit(row) {
        return Err(Cause::BoundPastLimit);
    }
    Ok(())
}
