//! The laws of steps.

ghost use Rattle.ground_step.specs.Laws.{ChoicesCostWithin, PlacesAreChoices, OutcomesAreOfChoices};
ghost use Rattle.ground_step.specs.Laws.{PackedHasLength};

/// The laws of choices by their places, which callers of `apply` and `successor` use.
pub fn step_laws()
    ensures costs { ChoicesCostWithin }
    ensures choices { PlacesAreChoices }
    ensures outcomes { OutcomesAreOfChoices }
    ensures length { PackedHasLength }
{}
