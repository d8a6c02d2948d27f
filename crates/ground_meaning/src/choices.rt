//! The joint choices of an effect, as definitions with their laws: all ways in which its draws may go,
//! the same in every state, with conditional effects as guarded parts. `specs/` has their meaning.

ghost use Rattle.ppddl_model.specs.declared.tree.Task.{Task};
ghost use Rattle.ppddl_model.specs.Objects.{World};
ghost use Rattle.ppddl_model.specs.Steps.{Charges};
ghost use Rattle.ground_meaning.specs.choices.Numbering.{Numbering};
ghost use Rattle.ground_meaning.specs.choices.Laws.{EqualChoicesAreFound, ConditionsHold};
ghost use Rattle.ground_meaning.specs.choices.Laws.{ChoicesSumToDenominator, JointIsOutcomes, JointIsNext};
ghost use Rattle.ground_meaning.specs.choices.Laws.{JointIsStep, JointMeetsInvariant};

/// The laws of joint choices, and of conditions on packed states.
pub fn joint_laws()
    ensures equal { EqualChoicesAreFound }
    ensures conditions { (w : World) (n : Numbering) → ConditionsHold w n }
    ensures weights { (w : World) (n : Numbering) → ChoicesSumToDenominator w n }
    ensures outcomes { (w : World) (n : Numbering) → JointIsOutcomes w n }
    ensures next { (w : World) (n : Numbering) → JointIsNext w n }
    ensures step { (task : Task) (charges : Charges) (n : Numbering) → JointIsStep task charges n }
    ensures invariant { (w : World) (n : Numbering) → JointMeetsInvariant w n }
{}
