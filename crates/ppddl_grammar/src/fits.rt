//! What the sections of planning texts declare and give fits: it meets what a well-formed task asks of it, and its names are in lower
//! case.

ghost use Rattle.ppddl_grammar.specs.fits.Laws.{TypesAreDeclared, PredicatesAreDeclared};
ghost use Rattle.ppddl_grammar.specs.fits.Laws.{FunctionsAreDeclared, TypesKeepFit};
ghost use Rattle.ppddl_grammar.specs.fits.Laws.{PredicatesKeepFit, FunctionsKeepFit, ObjectsKeepFit};
ghost use Rattle.ppddl_grammar.specs.fits.Laws.{ActionFits, ActionDraws, ActionIsNew, ActionGrows};
ghost use Rattle.ppddl_grammar.specs.fits.Laws.{StartFits, StartDraws, ValuesFit};
ghost use Rattle.ppddl_grammar.specs.fits.Laws.{GoalFits, GoalRewardFits};
ghost use Rattle.ppddl_grammar.specs.fits.Laws.{FormsAreLower, TypesHaveNames};
ghost use Rattle.ppddl_grammar.specs.fits.Laws.{PredicatesHaveNames, FunctionsHaveNames};
ghost use Rattle.ppddl_grammar.specs.fits.Laws.{ObjectsHaveNames, ActionHasName};

/// A section declares more of its kind and nothing else, and what is declared behind what fits fits.
pub fn declaration_laws()
    ensures types { TypesAreDeclared }
    ensures predicates { PredicatesAreDeclared }
    ensures functions { FunctionsAreDeclared }
    ensures types_fit { TypesKeepFit }
    ensures predicates_fit { PredicatesKeepFit }
    ensures functions_fit { FunctionsKeepFit }
    ensures objects_fit { ObjectsKeepFit }
{}

/// An action fits in every world and domain in which what was declared before is declared.
pub fn action_laws()
    ensures fits { ActionFits }
    ensures draws { ActionDraws }
    ensures new { ActionIsNew }
    ensures grows { ActionGrows }
{}

/// What a problem says of its start and its goal fits, in every world and domain in which what was declared before is declared.
pub fn problem_laws()
    ensures items { StartFits }
    ensures draws { StartDraws }
    ensures values { ValuesFit }
    ensures goal { GoalFits }
    ensures reward { GoalRewardFits }
{}

/// Forms that a reader reads are in lower case, and what they declare has names in lower case.
pub fn name_laws()
    ensures forms { FormsAreLower }
    ensures types { TypesHaveNames }
    ensures predicates { PredicatesHaveNames }
    ensures functions { FunctionsHaveNames }
    ensures objects { ObjectsHaveNames }
    ensures action { ActionHasName }
{}
