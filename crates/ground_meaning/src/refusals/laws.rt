//! That the ground problem of a well-formed task stands for it, and how its names are spelled.

ghost use Rattle.ground_meaning.specs.refusals.Laws.{GroundedStands, NamesKeepTheirForm};

/// What is grounded stands for the task, and its names have the form of those that the task declares.
pub fn grounding_laws()
    ensures stands { GroundedStands }
    ensures names { NamesKeepTheirForm }
{}
