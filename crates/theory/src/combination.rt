// What both rules allow, and what numbers and tables make true.
ghost use Rattle.engine.specs.Rules.{SpanAllowed, TableAllowed};
ghost use Rattle.theory.specs.Combining.{ExactForChosen, ExactTogether};

// Some arrangement is allowed by the table rule and by the span rule exactly when some whole numbers and tables make
// every row true; and so for the rows that are chosen of a list.
pub fn combination_is_exact()
    ensures whole { ExactTogether TableAllowed SpanAllowed }
    ensures chosen { ExactForChosen TableAllowed SpanAllowed }
{}
