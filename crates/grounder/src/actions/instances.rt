//! Instances as ground actions.

ghost use Rattle.std.specs.Prelude.{◌≡◌, length, IfOk, IfSome};
ghost use Rattle.std.specs.Option.{option_copied};
ghost use Rattle.task_instances.specs.facts.Facts.{table_of};
ghost use Rattle.task_instances.specs.kept_rows.Kept.{IsRow};
ghost use Rattle.grounder.specs.instance_names.Names.{instance_of_row};
ghost use Rattle.grounder.specs.actions.Answers.{IsBindingOf};
ghost use Rattle.grounder.specs.actions.Forming.{IsFine, refusal_of};
ghost use Rattle.grounder.specs.actions.Growing.{action_or_limit, IsAnswerOf};
ghost use Rattle.grounder.specs.actions.Repeating.{under_name, IsLike};

use crate::actions::copying::copied_condition;
use crate::actions::forming::{Formed, form_under};
use crate::instance_names::NameWriter;
use ground_meaning::{GroundRefusal, LimitCode};
use ground_model::{GroundAction, Text};
use ground_terms::Scope;
use outcome_dist::{Binding, Choices, JointRefusal};
use ppddl_model::Action;
use std::alloc::{AllocError, Global};

/// Why an action is not grounded whose choices are refused.
fn refusal_of(refusal: JointRefusal) -> GroundRefusal
    ensures { result ≡ refusal_of refusal }
{
    match refusal {
        JointRefusal::Choices => GroundRefusal::Limit(LimitCode::Choices),
        JointRefusal::Denominator => GroundRefusal::Limit(LimitCode::Denominator),
        JointRefusal::OutcomeCost => GroundRefusal::Limit(LimitCode::OutcomeCost),
        JointRefusal::Memory => GroundRefusal::Memory,
    }
}

/// The instance of an action whose objects are those of a row as a ground action, with this base cost in
/// each of its choices, or the first limit on its choices.
fn ground_action<'x>(
    alloc: Global,
    within: &Binding<'_>,
    base: u64,
    action: &Action,
    row: &'x [u32],
    names: &mut NameWriter<'x>,
) -> Result<GroundAction, GroundRefusal>
    requires named { IsBindingOf names.old.task within.now }
    requires action { names.old.action ≡ action.now }
    requires fine { IsFine names.old.task names.old.action }
    requires row { IsRow (table_of names.old.task) (length names.old.action.params) row.now }
    ensures same { names.new ≡ names.old }
    ensures answer { IsAnswerOf result (action_or_limit names.old.task base
        (instance_of_row names.old.task names.old.action row.now)) }
{
    let params = action.params.as_slice();
    match form_under(alloc, within, base, action, params, row, &Scope::Empty) {
        Ok(formed) => {
            let Formed { condition, choices } = formed;
            let Choices { list, den } = choices;
            let name = names.text(alloc, row)?;
            Ok(GroundAction {
                name,
                condition,
                choices: list,
                den,
            })
        }
        Err(refusal) => Err(refusal_of(refusal)),
    }
}

/// A ground action under another name. It shares its choices with the one that is known.
fn renamed(alloc: Global, known: &GroundAction, name: Text) -> Result<GroundAction, AllocError>
    ensures { IfOk result (λ x. x ≡ under_name name known.now) }
{
    Ok(GroundAction {
        name,
        condition: copied_condition(alloc, &known.condition)?,
        choices: known.choices.clone()?,
        den: known.den,
    })
}

/// The instance of an action as `ground_action` answers it. Where a ground action is known from which it
/// differs in its name alone, it is a copy of that one under its own name, and is not formed.
pub(super) fn next_action<'x>(
    alloc: Global,
    within: &Binding<'_>,
    base: u64,
    action: &Action,
    row: &'x [u32],
    like: Option<&GroundAction>,
    names: &mut NameWriter<'x>,
) -> Result<GroundAction, GroundRefusal>
    requires named { IsBindingOf names.old.task within.now }
    requires action { names.old.action ≡ action.now }
    requires fine { IsFine names.old.task names.old.action }
    requires row { IsRow (table_of names.old.task) (length names.old.action.params) row.now }
    requires like { IfSome (option_copied like)
        (IsLike names.old.task base (instance_of_row names.old.task names.old.action row.now)) }
    ensures same { names.new ≡ names.old }
    ensures answer { IsAnswerOf result (action_or_limit names.old.task base
        (instance_of_row names.old.task names.old.action row.now)) }
{
    match like {
        Some(known) => {
            let name = names.text(alloc, row)?;
            Ok(renamed(alloc, known, name)?)
        }
        None => ground_action(alloc, within, base, action, row, names),
    }
}
