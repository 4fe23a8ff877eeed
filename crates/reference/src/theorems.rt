// Theorems, each the contract of a function that does nothing.
ghost use Rattle.reference.specs.Worked.{WorkedAreRight, WorkedStand, WorkedTermsStand};
ghost use Rattle.reference.specs.Reference.{ReferenceIsRight};

// The answer that the reference computes is right, whichever terms were accepted, and whichever rows come: at a set-up that it is the one of the
// first arrangement which both rules allow, at a clash that the places are those that the walk leaves, and at a refusal that it is of the first row
// that is refused.
pub fn reference_is_right()
    ensures { ReferenceIsRight }
{}

// The answers stated for the sheets of the table are those that the reference gives, and so they are right.
pub fn worked_sheets()
    ensures terms { WorkedTermsStand }
    ensures answers { WorkedStand }
    ensures right { WorkedAreRight }
{}
