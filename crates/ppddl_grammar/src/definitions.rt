//! Which domains and problems are accepted, as relations without refusals.

ghost use Rattle.ppddl_grammar.specs.definitions.Laws.{DomainIsDerived, DomainIsAccepted};
ghost use Rattle.ppddl_grammar.specs.definitions.Laws.{ProblemIsDerived, ProblemIsAccepted};

/// A domain or a problem is accepted exactly where its forms spell it.
pub fn definition_laws()
    ensures domain_derived { DomainIsDerived }
    ensures domain_accepted { DomainIsAccepted }
    ensures problem_derived { ProblemIsDerived }
    ensures problem_accepted { ProblemIsAccepted }
{}
