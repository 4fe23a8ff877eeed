// Theorems, each the contract of a function that does nothing.
ghost use Rattle.congruence.specs.Claims.{ClosureIsExact, CongruenceIsNeeded, CongruenceSuffices};

// Numbers come with tables that interpret the terms exactly where they respect congruence and zero's is 0. The tables may be
// lists of the entries that the applications need, each answering by its first entry that fits.
pub fn congruent_numbers_are_interpreted()
    ensures suffices { CongruenceSuffices }
    ensures needed { CongruenceIsNeeded }
{}

// Congruence closure puts two terms into one class exactly where they are equal in every choice of numbers and tables that
// makes the terms of each given pair equal.
pub fn closure_is_exact()
    ensures { ClosureIsExact }
{}
