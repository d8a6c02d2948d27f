//! What the last line of a report says.

ghost use Rattle.policy_graph.specs.Laws.{AllAreDrawn};

/// A graph of which nothing is cut off has all states that the policy reaches.
pub fn graph_laws()
    ensures { AllAreDrawn }
{}
