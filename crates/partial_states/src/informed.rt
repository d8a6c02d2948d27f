//! The pair that layers and partial rows of a ground problem make, and certificates over it.

ghost use Rattle.ground_model.specs.Ground.{Ground};
ghost use Rattle.ground_model.specs.Invariant.{IsGroundProblem};
ghost use Rattle.partial_states.specs.informed.Laws.{InformedIsBalanced, InformedEncloses};

/// The laws of layers with partial rows.
pub fn informed_laws()
    ensures balanced { (g : Ground) → IsGroundProblem g → InformedIsBalanced g }
    ensures encloses { (g : Ground) → IsGroundProblem g → InformedEncloses g }
{}
