//! The laws of partial states.

ghost use Rattle.partial_states.specs.Laws.{KnownHolds, NextIsAdmitted, HeldIsPicked, HeldIsDecided, CostIsPicked};

/// What is known of conditions and of steps is true wherever what is known of the atoms is.
pub fn partial_state_laws()
    ensures known { KnownHolds }
    ensures next { NextIsAdmitted }
    ensures picked { HeldIsPicked }
    ensures decided { HeldIsDecided }
    ensures cost { CostIsPicked }
{}
