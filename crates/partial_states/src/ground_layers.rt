//! Layers of a ground problem: lower values by the truth of a few atoms.

ghost use Rattle.ground_model.specs.Ground.{Ground};
ghost use Rattle.ground_model.specs.Invariant.{IsGroundProblem};
ghost use Rattle.partial_states.specs.ground_layers.Laws.{LayerRowsPass, GroundLayersAreSubSolution};

/// The laws of layers of a ground problem.
pub fn ground_layer_laws()
    ensures rows { (g : Ground) → LayerRowsPass g }
    ensures lower { (g : Ground) → IsGroundProblem g → GroundLayersAreSubSolution g }
{}
