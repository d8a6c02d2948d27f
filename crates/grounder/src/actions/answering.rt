//! Ground actions within the limits.

ghost use Rattle.std.specs.Prelude.{◌≡◌, Ok};
ghost use Rattle.std.specs.List.{AllZip};
ghost use Rattle.ppddl_model.specs.Changing.{kept_instances};
ghost use Rattle.ppddl_model.specs.Steps.{Charges, base_cost};
ghost use Rattle.ppddl_model.specs.WellFormed.{IsWellFormed};
ghost use Rattle.ground_meaning.specs.refusals.Limits.{instances_within};
ghost use Rattle.task_instances.specs.kept_rows.Kept.{AreKept};
ghost use Rattle.grounder.specs.limits.Early.{early_limits};
ghost use Rattle.grounder.specs.actions.Answers.{IsBindingOf, Answers};

use crate::actions::GroundActions;
use crate::actions::growing::Growing;
use crate::actions::walking::add_actions;
use ground_meaning::GroundRefusal;
use outcome_dist::Binding;
use std::alloc::Global;
use task_instances::{Rows, TaskFacts};

/// The kept instances of a task as ground actions, in order, with this base cost in each of their choices,
/// and the ground size with them, or the first limit: for each instance the count, the size of its effect,
/// its joint choices, their costs, and the size of its effect for each choice. The tried preconditions have
/// the size `tested`. An effect is expanded only once its size has been counted and is within the limit.
pub fn ground_actions(
    alloc: Global,
    facts: &TaskFacts<'_>,
    within: &Binding<'_>,
    kept: &[Rows],
    base: u64,
    tested: u64,
) -> Result<GroundActions, GroundRefusal>
    requires well_formed { IsWellFormed facts.now }
    requires named { IsBindingOf facts.now within.now }
    requires kept { AllZip (AreKept facts.now) facts.now.domain.actions kept.now }
    requires tested { early_limits facts.now ≡ Ok tested }
    ensures exact { (charges : Charges) → base_cost facts.now charges ≡ base
        → Answers facts.now charges result
        (instances_within facts.now charges 0 tested (kept_instances facts.now)) }
{
    let task = facts.task();
    let none = Growing::new(alloc, tested);
    let grown = add_actions(
        alloc,
        facts,
        within,
        base,
        task.domain.actions.as_slice(),
        kept,
        none,
    )?;
    Ok(grown.into_actions())
}
