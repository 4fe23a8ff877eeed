// Three methods that are shorter and plausible, and would find a sheet possible that is not: the claim that each needs is false.
ghost use Rattle.engine.specs.Rules.{TableAllowed};
ghost use Rattle.theory.specs.Combining.{SoundTogether};
ghost use Rattle.theory.specs.Unsound.{SeparateArrangementsSuffice, SpanAllowedInBlocks, WaitingSuffices};

// Waiting until one part implies that two instants are equal, and adding that equality to the other part.
pub fn waiting_for_equalities_is_unsound()
    ensures { WaitingSuffices → ⊥ }
{}

// Letting each rule have an arrangement of its own.
pub fn separate_arrangements_are_unsound()
    ensures { SeparateArrangementsSuffice → ⊥ }
{}

// Branching on equal and unlike alone: giving the spans the equalities between instants, and no order.
pub fn branching_without_order_is_unsound()
    ensures { SoundTogether TableAllowed SpanAllowedInBlocks → ⊥ }
{}
