//! Runs are carried from a process to that for which it stands.

ghost use Rattle.policy_walk.specs.Laws.{RunsAreCarried, ActsAreCarried};

/// Runs are carried, and so is what certificates do.
pub fn carried_laws<S, T, A, B>()
    ensures runs { RunsAreCarried S T A B }
    ensures acts { ActsAreCarried S T A B }
{}
