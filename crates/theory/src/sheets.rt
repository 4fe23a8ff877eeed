// What the theorems say of some sheets, which shows that what they ask for can be met. Each function returns the codes, dates or numbers
// that its other clauses are about.
ghost use Rattle.std.specs.Prelude.{◌≡◌, All, pos};
ghost use Rattle.engine.specs.Arrangements.{Arrangement};
ghost use Rattle.engine.specs.Dates.{RightDates};
ghost use Rattle.engine.specs.Meaning.{Holds, Satisfiable, numbers_in};
ghost use Rattle.engine.specs.Rules.{SpanAllowed, TableAllowed};
ghost use Rattle.engine.specs.States.{active_rows};
ghost use Rattle.theory.specs.Accepted.{Accepted, NotedAccepted};
ghost use Rattle.theory.specs.Combining.{AllowedByBoth, Possible};
ghost use Rattle.theory.specs.Models.{DatedModel, EqualityModel};
ghost use Rattle.theory.specs.Sheets.{counts_all, dates_between, each_past, equalities_of, from_4_to, holding, in_two_ticks, level_terms};
ghost use Rattle.theory.specs.Sheets.{numbers_with_b, spans_of, three_terms, without_the_last, x_between, x_past_both, x_with_a, x_with_b};
ghost use Rattle.theory.specs.Unsound.{NoEqualityImplied, SpanAllowedInBlocks};

// An instant from 4 to 6, and there a level unlike those at 4 and at 6. Both rules allow the arrangement with the instant between
// the two, whose codes these are; and so some numbers and tables make every row true.
pub fn codes_from_4_to_6() -> [u8; 4]
    ensures codes { result ≡ x_between }
    ensures accepted { Accepted level_terms (from_4_to (pos 6)) }
    ensures allowed { AllowedByBoth TableAllowed SpanAllowed level_terms (from_4_to (pos 6)) x_between }
    ensures met { Satisfiable level_terms (from_4_to (pos 6)) }
{
    [0, 2, 2, 6]
}

// Dates for that arrangement, with which a model is put together.
pub fn dates_from_4_to_6() -> [i64; 4]
    ensures dates { result ≡ dates_between }
    ensures right { RightDates counts_all (holding (from_4_to (pos 6)) x_between) dates_between }
    ensures model { (found : TableAllowed level_terms (from_4_to (pos 6)) x_between) ×
        DatedModel counts_all (holding (from_4_to (pos 6)) x_between) found.numbers dates_between }
{
    [0, 5, 4, 6]
}

// The same from 4 to 5, with no tick between. The instants alone are satisfiable, and so are the levels alone; each rule
// allows an arrangement, whose codes these are; and neither part implies that two instants are equal. Yet no numbers and
// tables make every row true, and so no arrangement is allowed by both rules.
pub fn codes_of_parts_from_4_to_5() -> ([u8; 4], [u8; 4])
    ensures table_codes { result.0 ≡ x_past_both }
    ensures span_codes { result.1 ≡ x_with_a }
    ensures accepted { Accepted level_terms (from_4_to (pos 5)) }
    ensures instants { Satisfiable level_terms (spans_of (from_4_to (pos 5))) }
    ensures levels { Satisfiable level_terms (equalities_of (from_4_to (pos 5))) }
    ensures by_table { Arrangement 4 x_past_both × TableAllowed level_terms (from_4_to (pos 5)) x_past_both }
    ensures by_spans { Arrangement 4 x_with_a × SpanAllowed level_terms (from_4_to (pos 5)) x_with_a }
    ensures nothing_implied { NoEqualityImplied level_terms (from_4_to (pos 5)) }
    ensures unmet { Satisfiable level_terms (from_4_to (pos 5)) → ⊥ }
    ensures impossible { Possible TableAllowed SpanAllowed level_terms (from_4_to (pos 5)) → ⊥ }
{
    ([0, 2, 2, 4], [0, 2, 3, 4])
}

// With the last row of that sheet muted, both rules allow the arrangement with these codes, and so the other rows are satisfiable.
pub fn codes_without_the_last() -> [u8; 4]
    ensures codes { result ≡ x_with_b }
    ensures accepted { NotedAccepted level_terms (without_the_last (from_4_to (pos 5))) }
    ensures allowed { AllowedByBoth TableAllowed SpanAllowed level_terms (active_rows (without_the_last (from_4_to (pos 5)))) x_with_b }
    ensures met { Satisfiable level_terms (active_rows (without_the_last (from_4_to (pos 5)))) }
{
    [0, 2, 2, 5]
}

// Numbers for its terms: x and b share a block and have one number, so that their levels are always equal, and no two other terms are.
// These numbers are equal just so. So they come with tables, and they make the other rows true.
pub fn numbers_without_the_last() -> [i64; 7]
    ensures numbers { result ≡ numbers_with_b }
    ensures model { EqualityModel level_terms (active_rows (without_the_last (from_4_to (pos 5)))) (numbers_in numbers_with_b) }
    ensures rows { All (Holds (numbers_in numbers_with_b)) (active_rows (without_the_last (from_4_to (pos 5)))) }
{
    [0, 5, 4, 5, 6, 7, 6]
}

// Three instants in two ticks, no two of them equal. If the spans are given only the equalities between instants, both rules allow the
// arrangement with these codes; and yet no numbers make every row true.
pub fn codes_without_order() -> [u8; 4]
    ensures codes { result ≡ each_past }
    ensures accepted { Accepted three_terms in_two_ticks }
    ensures without_order { AllowedByBoth TableAllowed SpanAllowedInBlocks three_terms in_two_ticks each_past }
    ensures unmet { Satisfiable three_terms in_two_ticks → ⊥ }
    ensures impossible { Possible TableAllowed SpanAllowed three_terms in_two_ticks → ⊥ }
{
    [0, 2, 4, 6]
}
