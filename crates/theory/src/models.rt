// How numbers for the instants, and numbers that the table rule found, become one model.
ghost use Rattle.theory.specs.Models.{ClassesSuffice, DatesAreEqualInClasses, DatesSuffice, EqualitiesSuffice, InstantsSuffice, ModelsAreDated, ModelsArePutTogether};

// From an arrangement that the table rule allows, and any numbers for the instants in its order, comes a model: numbers and tables that make
// true every same and unlike row, and every row on instants that the given numbers make true. With the dates of an engine they
// make true every row that it counts, whichever kinds of row these are.
pub fn models_are_put_together()
    ensures numbers { ModelsArePutTogether }
    ensures dates { ModelsAreDated }
{}

// Which numbers would do. Tables, and same and unlike rows, ask only which terms are equal; rows on instants ask only for the numbers of
// the instants. So a set-up can choose its own numbers.
pub fn equalities_and_instants_suffice()
    ensures equalities { EqualitiesSuffice }
    ensures classes { ClassesSuffice }
    ensures instants { InstantsSuffice }
    ensures dates { DatesSuffice }
    ensures same_dates { DatesAreEqualInClasses }
{}
