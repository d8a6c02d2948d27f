//! The ground actions of a task within the limits, the goal counted.

ghost use Rattle.std.specs.Prelude.{◌≡◌, Ok, map};
ghost use Rattle.std.specs.List.{AllZip};
ghost use Rattle.ppddl_model.specs.Changing.{kept_instances};
ghost use Rattle.ppddl_model.specs.Steps.{Charges, base_cost};
ghost use Rattle.ppddl_model.specs.WellFormed.{IsWellFormed};
ghost use Rattle.ground_meaning.specs.refusals.Problem.{ground_action};
ghost use Rattle.task_instances.specs.kept_rows.Kept.{AreKept};
ghost use Rattle.grounder.specs.limits.Early.{early_limits};
ghost use Rattle.grounder.specs.actions.Answers.{IsBindingOf};
ghost use Rattle.grounder.specs.Limited.{Limited, sized};

use crate::actions::ground_actions;
use ground_meaning::{GroundRefusal, LimitCode, MOST_GROUND_SIZE};
use ground_model::{GroundAction, List};
use ground_terms::condition_size;
use outcome_dist::Binding;
use std::alloc::Global;
use task_instances::{Rows, TaskFacts};

/// The ground actions, where they and the goal are within the limits.
pub(crate) fn sized_actions(
    alloc: Global,
    facts: &TaskFacts<'_>,
    within: &Binding<'_>,
    kept: &[Rows],
    base: u64,
    tested: u64,
) -> Result<List<GroundAction>, GroundRefusal>
    requires well_formed { IsWellFormed facts.now }
    requires named { IsBindingOf facts.now within.now }
    requires kept { AllZip (AreKept facts.now) facts.now.domain.actions kept.now }
    requires tested { early_limits facts.now ≡ Ok tested }
    ensures exact { (charges : Charges) → base_cost facts.now charges ≡ base
        → Limited (λ list. list ≡ map (ground_action facts.now charges) (kept_instances facts.now))
        result (sized facts.now charges tested) }
{
    let actions = ground_actions(alloc, facts, within, kept, base, tested)?;
    let goal = condition_size(facts.table(), &facts.task().problem.goal);
    if actions.size.saturating_add(goal) > MOST_GROUND_SIZE {
        return Err(GroundRefusal::Limit(LimitCode::GroundSize));
    }
    Ok(actions.list)
}
