// What is asked of terms: how many are dated, and what an application asks of the terms before it.
ghost use Rattle.std.specs.Prelude.{◌≡◌, ℕ, ◌≤◌, length};
ghost use Rattle.engine.specs.Terms.{is_dated_at, seats_of, arguments_below, counts_differ, any_count_differs};

use sheet::term::{Form, Kind, Term};

// Term 0, which is there without being declared.
pub const ZERO: Term = Term {
    kind: Kind::Dated,
    form: Form::Name,
};

// Whether term i is dated; one that is not there counts as dated.
pub(crate) fn is_dated_at(terms: &[Term], i: u8) -> bool
    ensures { result ≡ is_dated_at terms.now i }
{
    terms.get(i as usize).is_none_or(|term| term.is_dated())
}

// How many of the terms are dated.
#[tactic(auto, using(crate::proofs::Seats::seats_counted))]
pub(crate) fn count_seats(terms: &[Term]) -> usize
    ensures value { result ≡ length (seats_of terms.now) }
    ensures bound { result ≤ length terms.now }
{
    terms.iter().filter(|term| term.is_dated()).count()
}

// Whether each argument is one of the first n terms.
pub(crate) fn has_arguments_below(form: Form, n: usize) -> bool
    ensures { result ≡ arguments_below n form }
{
    match form {
        Form::Name => true,
        Form::One { argument, .. } => (argument as usize) < n,
        Form::Two { first, second, .. } => (first as usize) < n && (second as usize) < n,
    }
}

// Whether the two apply one table to different counts of arguments.
pub(crate) fn counts_differ(form: Form, other: Form) -> bool
    ensures { result ≡ counts_differ form other }
{
    match (form, other) {
        (Form::One { table: a, .. }, Form::Two { table: b, .. })
        | (Form::Two { table: a, .. }, Form::One { table: b, .. }) => a == b,
        _ => false,
    }
}

// Whether some term applies the form's table to another count of arguments.
pub(crate) fn any_count_differs(form: Form, terms: &[Term]) -> bool
    ensures { result ≡ any_count_differs form terms.now }
{
    terms.iter().any(|term| counts_differ(form, term.form))
}
