//! The law of kept transitions.

ghost use Rattle.bellman_backup.specs.Laws.{KeptIsKeptLater};

/// What a view keeps is kept by each view that has noted more.
pub fn kept_laws()
    ensures later { KeptIsKeptLater }
{}
