//! The laws of cores and events.

ghost use Rattle.ground_model.specs.Ground.{Ground};
ghost use Rattle.ground_model.specs.Invariant.{IsGroundProblem};
ghost use Rattle.bound_core.specs.Laws.{FirstIsSound, EventKeepsSound, EventsKeepSound};
ghost use Rattle.bound_core.specs.Laws.{NothingSeenWidens, NothingSeenWidensLater};
ghost use Rattle.bound_core.specs.Laws.{SoundIsBalanced, SoundCovers, SeenCovers};
ghost use Rattle.bound_core.specs.Laws.{WordsPolicyIsWithin, WordNamesItsAct};
ghost use Rattle.bound_core.specs.Laws.{PublishedAreInside, RowsShowTheirNumbers};

/// What is true of every core, whatever the order of the events that led to it.
pub fn event_laws()
    ensures first { (g : Ground) → FirstIsSound g }
    ensures event { (g : Ground) → EventKeepsSound g }
    ensures events { (g : Ground) → EventsKeepSound g }
    ensures narrows { (g : Ground) → NothingSeenWidens g }
    ensures narrows_later { (g : Ground) → NothingSeenWidensLater g }
{}

/// What the numbers of a sound core are worth.
pub fn core_laws()
    ensures balanced { (g : Ground) → SoundIsBalanced g }
    ensures covers { (g : Ground) → IsGroundProblem g → SoundCovers g }
    ensures seen { (g : Ground) → SeenCovers g }
    ensures policy { (g : Ground) → WordsPolicyIsWithin g }
    ensures act { (g : Ground) → IsGroundProblem g → WordNamesItsAct g }
    ensures inside { (g : Ground) → IsGroundProblem g → PublishedAreInside g }
    ensures rows { (g : Ground) → RowsShowTheirNumbers g }
{}
