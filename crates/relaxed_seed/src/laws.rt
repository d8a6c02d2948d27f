//! The laws of relaxed potentials.

ghost use Rattle.decision_process.specs.Process.{Process};
ghost use Rattle.ground_model.specs.Ground.{Ground};
ghost use Rattle.ground_model.specs.Invariant.{IsGroundProblem};
ghost use Rattle.relaxed_seed.specs.Laws.{ConsistentIsUnder, HasGreatestPotential};
ghost use Rattle.relaxed_seed.specs.Laws.{GreatestPotentialsAgree, HasRelaxed, RelaxedIsDetermined};
ghost use Rattle.relaxed_seed.specs.Laws.{RelaxedIsConsistent, RelaxedIsUnder};

/// What a consistent heuristic answers is known from below, for every process over any states and actions.
pub fn consistency_laws<S, A>()
    ensures under { (p : Process S A) → ConsistentIsUnder p }
{}

/// The greatest relaxed potential of a state: there is one, and the price of the goal by it is consistent, so it is known
/// from below.
pub fn potential_laws()
    ensures greatest { (g : Ground) → IsGroundProblem g → HasGreatestPotential g }
    ensures agree { (g : Ground) → GreatestPotentialsAgree g }
    ensures relaxed { (g : Ground) → IsGroundProblem g → HasRelaxed g }
    ensures determined { (g : Ground) → RelaxedIsDetermined g }
    ensures consistent { (g : Ground) → IsGroundProblem g → RelaxedIsConsistent g }
    ensures under { (g : Ground) → IsGroundProblem g → RelaxedIsUnder g }
{}
