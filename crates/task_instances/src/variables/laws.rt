//! What instances do in which all that is named stands for the same.

ghost use Rattle.ppddl_model.specs.Objects.{World};
ghost use Rattle.ground_meaning.specs.choices.Numbering.{Numbering};
ghost use Rattle.task_instances.specs.variables.Laws.{ConditionByNamed, ChoicesByNamed, WidestByNamed};
ghost use Rattle.task_instances.specs.variables.Laws.{ChargedByNamed, JointByNamed};

/// A form is the same under two bindings under which each variable that it names stands for the same.
pub fn named_laws()
    ensures condition { (w : World) (n : Numbering) → ConditionByNamed w n }
    ensures choices { (w : World) (n : Numbering) → ChoicesByNamed w n }
    ensures widest { (w : World) (n : Numbering) → WidestByNamed w n }
    ensures charged { (w : World) (n : Numbering) → ChargedByNamed w n }
    ensures joint { (w : World) (n : Numbering) → JointByNamed w n }
{}
