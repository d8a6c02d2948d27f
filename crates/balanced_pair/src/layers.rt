//! Layers: lower values of projected states, in groups that share the costs.

ghost use Rattle.decision_process.specs.Process.{Process};
ghost use Rattle.balanced_pair.specs.layers.Laws.{GreaterIsSubSolution, GroupIsSubSolution, LayersAreSubSolution};

/// The laws of layers, for projections into any type.
pub fn layer_laws<S, A, V>()
    ensures greater { (p : Process S A) → GreaterIsSubSolution p }
    ensures group { (p : Process S A) → GroupIsSubSolution V p }
    ensures layers { (p : Process S A) → LayersAreSubSolution V p }
{}
