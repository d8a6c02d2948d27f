//! Walks are runs.

ghost use Rattle.policy_walk.specs.Laws.{FirstAboveIsFirst, WalksAreRuns};

/// What a draw gives is what stands first above it, as in a trial; each walk is a run of the process of
/// its ground problem, whatever is drawn.
pub fn walk_laws<X>()
    ensures drawn { FirstAboveIsFirst X }
    ensures runs { WalksAreRuns }
{}
