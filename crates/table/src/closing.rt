// Congruence closure, by rounds over the terms.
ghost use Rattle.std.specs.Prelude.{◌≡◌, ◌<◌, ◌≤◌, true, length};
ghost use Rattle.congruence.specs.Claims.{ArgumentsBelow};
ghost use Rattle.congruence.specs.Closure.{close_round, close_rounds, close_term, is_congruent};
ghost use Rattle.engine.specs.Limits.{max_terms};
ghost use Rattle.engine.specs.Terms.{arguments_below};

use crate::classes::Classes;
use sheet::term::{Form, Term};

// Whether the two are applications of one table, and their arguments are in one class each.
fn is_congruent(classes: &Classes, form: Form, other: Form) -> bool
    requires left { arguments_below max_terms form ≡ true }
    requires right { arguments_below max_terms other ≡ true }
    ensures { result ≡ is_congruent classes.now.least form other }
{
    match (form, other) {
        (
            Form::One {
                table: a,
                argument: x,
            },
            Form::One {
                table: b,
                argument: y,
            },
        ) => a == b && classes.in_one_class(x, y),
        (
            Form::Two {
                table: a,
                first: x,
                second: y,
            },
            Form::Two {
                table: b,
                first: z,
                second: w,
            },
        ) => a == b && classes.in_one_class(x, z) && classes.in_one_class(y, w),
        _ => false,
    }
}

// Puts term i into one class with each earlier term that it is congruent to.
fn close_term(terms: &[Term], i: usize, classes: &mut Classes)
    requires few { length terms.now ≤ max_terms }
    requires arguments { ArgumentsBelow max_terms terms.now }
    requires there { i < length terms.now }
    ensures { classes.new.least ≡ close_term terms.now i i classes.old.least }
{
    for j in 0..i {
        if is_congruent(classes, terms[i].form, terms[j].form) {
            classes.merge(i as u8, j as u8);
        }
    }
}

// One round over all terms.
fn close_round(terms: &[Term], classes: &mut Classes)
    requires few { length terms.now ≤ max_terms }
    requires arguments { ArgumentsBelow max_terms terms.now }
    ensures { classes.new.least ≡ close_round terms.now classes.old.least }
{
    for i in 0..terms.len() {
        close_term(terms, i, classes);
    }
}

// Round after round, until one changes nothing. Each that changes something leaves fewer classes, so there are no more rounds
// than terms.
pub(crate) fn close(terms: &[Term], classes: &mut Classes)
    requires few { length terms.now ≤ max_terms }
    requires arguments { ArgumentsBelow max_terms terms.now }
    ensures { classes.new.least ≡ close_rounds terms.now (length terms.now) classes.old.least }
{
    for _ in 0..terms.len() {
        let before = *classes;
        close_round(terms, classes);
        if *classes == before {
            return;
        }
    }
}
