//! Partial rows of a ground problem: one upper value, and one act, for the states of a partial state.

ghost use Rattle.ground_model.specs.Ground.{Ground};
ghost use Rattle.ground_model.specs.Invariant.{IsGroundProblem};
ghost use Rattle.partial_states.specs.ground_rows.Laws.{LyingIsAdmitted, GroundRowsAreSuperSolution};

/// The laws of partial rows of a ground problem.
pub fn ground_row_laws()
    ensures lies { LyingIsAdmitted }
    ensures upper { (g : Ground) → IsGroundProblem g → GroundRowsAreSuperSolution g }
{}
