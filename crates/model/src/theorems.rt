// Theorems, each the contract of a function that does nothing.
ghost use Rattle.model.specs.Claims.{EntriesAreDetermined, EntriesArePicked, NumbersAreDetermined, NumbersArePicked, NumbersAreWithin, RecountGivesBack, RecountIsExact};

// The numbers that are computed from groups and dates are those that a set-up has, they are the only ones, and they are within the limits.
pub fn numbers_are_picked()
    ensures picked { NumbersArePicked }
    ensures determined { NumbersAreDetermined }
    ensures within { NumbersAreWithin }
{}

// The entries that are computed are just those that the applications need, each once, in the order of the first terms that need them; and they are
// the only list of which that is so.
pub fn entries_are_picked()
    ensures picked { EntriesArePicked }
    ensures determined { EntriesAreDetermined }
{}

// A recount gives just the number that the names and entries lead to. From the names and entries of numbers that come with tables it gives back
// each number, in whichever order the entries stand.
pub fn recount_is_exact()
    ensures exact { RecountIsExact }
    ensures gives_back { RecountGivesBack }
{}
