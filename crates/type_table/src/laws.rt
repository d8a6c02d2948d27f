//! The laws of types and numbers.

ghost use Rattle.type_table.specs.Laws.{NumbersAreOfNames, TypesDiffer};
ghost use Rattle.type_table.specs.Laws.{OrderedIsNotCircular, FittingHasNoCycle};

/// The laws of types by number, and what cycles are in the words of well-formed tasks.
pub fn type_laws()
    ensures numbers { NumbersAreOfNames }
    ensures distinct { TypesDiffer }
    ensures ordered { OrderedIsNotCircular }
    ensures fitting { FittingHasNoCycle }
{}
