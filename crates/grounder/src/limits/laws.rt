//! The early limits among all limits.

ghost use Rattle.grounder.specs.limits.Laws.{LimitsBegin};

/// All limits of a task are the early ones, and then the later ones.
pub fn limit_laws()
    ensures { LimitsBegin }
{}
