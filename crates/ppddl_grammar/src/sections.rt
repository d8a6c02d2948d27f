//! Which sections of planning texts are accepted, as relations without refusals: types, predicates, functions, actions,
//! `:init` and goals.

ghost use Rattle.ppddl_grammar.specs.sections.Laws.{TypesAreDerived, TypesAreAccepted};
ghost use Rattle.ppddl_grammar.specs.sections.Laws.{PredicatesAreDerived, PredicatesAreAccepted};
ghost use Rattle.ppddl_grammar.specs.sections.Laws.{FunctionsAreDerived, FunctionsAreAccepted};
ghost use Rattle.ppddl_grammar.specs.sections.Laws.{ActionIsDerived, ActionIsAccepted};
ghost use Rattle.ppddl_grammar.specs.sections.Laws.{StartIsDerived, StartIsAccepted};
ghost use Rattle.ppddl_grammar.specs.sections.Laws.{GoalIsDerived, GoalIsAccepted};
ghost use Rattle.ppddl_grammar.specs.sections.Laws.{RewardIsDerived, RewardIsAccepted};

/// A section is accepted, with what it says, exactly where its forms spell that.
pub fn section_laws()
    ensures types_derived { TypesAreDerived }
    ensures types_accepted { TypesAreAccepted }
    ensures predicates_derived { PredicatesAreDerived }
    ensures predicates_accepted { PredicatesAreAccepted }
    ensures functions_derived { FunctionsAreDerived }
    ensures functions_accepted { FunctionsAreAccepted }
    ensures action_derived { ActionIsDerived }
    ensures action_accepted { ActionIsAccepted }
    ensures start_derived { StartIsDerived }
    ensures start_accepted { StartIsAccepted }
    ensures goal_derived { GoalIsDerived }
    ensures goal_accepted { GoalIsAccepted }
    ensures reward_derived { RewardIsDerived }
    ensures reward_accepted { RewardIsAccepted }
{}
