//! The laws of actions that are enough.

ghost use Rattle.applicable_actions.specs.distinct.Laws.{LowerByEnough, UpperByEnough, SuccessorsByEnough};

/// Backups and successors by actions that are enough are those by all open actions.
pub fn enough_laws()
    ensures lower { LowerByEnough }
    ensures upper { UpperByEnough }
    ensures successors { SuccessorsByEnough }
{}
