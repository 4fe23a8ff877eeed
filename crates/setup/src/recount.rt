// Numbers counted anew, from the numbers of the names and from entries.
ghost use Rattle.std.specs.Prelude.{◌≡◌, ◌<◌, ◌≤◌, length};
ghost use Rattle.congruence.specs.Entries.{fits};
ghost use Rattle.engine.specs.Limits.{max_terms};
ghost use Rattle.engine.specs.Meaning.{form_at};
ghost use Rattle.model.specs.Recounting.{first_fit, known_at, names_before, number_by, recount, recounts};

use arrayvec::ArrayVec;
use congruence::entry::{Arguments, Entry};
use engine::limits::MAX_TERMS;
use sheet::term::{Form, Term};

// For each of the first terms its number, if nothing is missing for it.
type Known = ArrayVec<Option<i64>, MAX_TERMS>;

// The number of a term, from a number for each name but zero, in the order of the terms, and entries, of which the first that fits answers.
pub(crate) fn recount_term(
    terms: &[Term],
    names: &[i64],
    entries: &[Entry],
    term: u8,
) -> Option<i64>
    requires few { length terms.now ≤ max_terms }
    ensures { result ≡ recount terms.now names.now entries.now term }
{
    if term as usize >= terms.len() {
        return None;
    }
    let known = recount_first(terms, names, entries, term as usize + 1);
    known_at(known.as_slice(), term)
}

// The numbers of the first terms. Arguments stand earlier, so each is worked out from those before it.
#[tactic(auto, using(model::proofs::Recounting::recounts_long))]
fn recount_first(terms: &[Term], names: &[i64], entries: &[Entry], count: usize) -> Known
    requires few { length terms.now ≤ max_terms }
    requires there { count ≤ length terms.now }
    ensures { result.items ≡ recounts terms.now names.now entries.now count }
{
    if count == 0 {
        return Known::new();
    }
    let mut known = recount_first(terms, names, entries, count - 1);
    let number = number_by(terms, names, entries, known.as_slice(), count - 1);
    known.push(number);
    known
}

// The number of a term, where the numbers of those before it are known.
fn number_by(
    terms: &[Term],
    names: &[i64],
    entries: &[Entry],
    known: &[Option<i64>],
    term: usize,
) -> Option<i64>
    requires few { length terms.now ≤ max_terms }
    requires there { term < length terms.now }
    ensures { result ≡ number_by terms.now names.now entries.now known.now term (form_at terms.now term) }
{
    match terms[term].form {
        Form::Name if term == 0 => Some(0),
        Form::Name => names.get(names_before(terms, term)).copied(),
        Form::One { table, argument } => {
            let number = known_at(known, argument)?;
            answer_at(entries, table, Arguments::Unary(number))
        }
        Form::Two {
            table,
            first,
            second,
        } => {
            let number = known_at(known, first)?;
            let other = known_at(known, second)?;
            answer_at(entries, table, Arguments::Binary(number, other))
        }
    }
}

// The answer of the first entry of the table at these numbers, if there is one.
fn answer_at(entries: &[Entry], table: char, arguments: Arguments) -> Option<i64>
    ensures { result ≡ first_fit (fits table arguments) entries.now }
{
    let entry = entries.iter().find(|entry| entry.fits(table, arguments))?;
    Some(entry.answer)
}

// How many names but zero stand before a term.
fn names_before(terms: &[Term], term: usize) -> usize
    requires few { length terms.now ≤ max_terms }
    requires there { term ≤ length terms.now }
    ensures { result ≡ names_before terms.now term }
{
    let mut count = 0;
    for earlier in 1..term {
        if terms[earlier].form == Form::Name {
            count += 1;
        }
    }
    count
}

// What is known of a term, if anything is.
#[tactic(auto, using(model::proofs::Recounting::known_is))]
fn known_at(known: &[Option<i64>], term: u8) -> Option<i64>
    ensures { result ≡ known_at known.now term }
{
    *known.get(term as usize)?
}
