//! What a policy reaches is carried from a process to that for which it stands.

ghost use Rattle.policy_graph.specs.Laws.{ReachIsCarried};

/// What a policy reaches stands for what its counterpart reaches.
pub fn carried_laws<S, T, A, B>()
    ensures { ReachIsCarried S T A B }
{}
