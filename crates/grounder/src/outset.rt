//! Kept instances that exceed a limit whatever their atoms are, or exceed none: it is known before any literal
//! is listed and any effect is expanded.

mod bounded;
mod bounding;
mod draws;
mod walked;
mod walking;

ghost use Rattle.std.specs.Prelude.{◌≡◌, true, Ok, Err, IfErr};
ghost use Rattle.std.specs.List.{AllZip};
ghost use Rattle.ppddl_model.specs.Changing.{kept_instances};
ghost use Rattle.ppddl_model.specs.Steps.{Charges, base_cost};
ghost use Rattle.ppddl_model.specs.WellFormed.{IsWellFormed};
ghost use Rattle.ground_meaning.specs.refusals.Limits.{instances_within};
ghost use Rattle.task_instances.specs.kept_rows.Kept.{AreKept};
ghost use Rattle.grounder.specs.Limited.{sized};

use crate::outset::bounded::Bounded;
use crate::outset::bounding::bound_action;
use crate::outset::draws::greatest_value;
use crate::outset::walked::Walked;
use crate::outset::walking::walk_action;
use ground_meaning::{LimitCode, MOST_GROUND_SIZE};
use ground_terms::condition_size;
use task_instances::{Rows, TaskFacts};

/// The first limit that the kept instances exceed, where each step costs this much at least and the tried
/// preconditions have the size `tested`. They are counted in order, each by its effect once, as long as their
/// effects are sure to be within the limits on choices and costs. No limit is answered where another limit might
/// come first, by the atoms that the instances have.
pub(crate) fn sizes_within(
    facts: &TaskFacts<'_>,
    kept: &[Rows],
    base: u64,
    tested: u64,
) -> Result<(), LimitCode>
    requires well_formed { IsWellFormed facts.now }
    requires kept { AllZip (AreKept facts.now) facts.now.domain.actions kept.now }
    ensures { IfErr result (λ code. (charges : Charges) → base_cost facts.now charges ≡ base
        → instances_within facts.now charges 0 tested (kept_instances facts.now) ≡ Err code) }
{
    let task = facts.task();
    let actions = task.domain.actions.as_slice();
    let dearest = greatest_value(task.problem.values.as_slice());
    let mut walked = Walked {
        instances: 0,
        size: tested,
        is_exact: true,
    };
    for (place, action) in actions.iter().enumerate() {
        match walk_action(facts, base, dearest, action, &kept[place], walked) {
            Ok(Some(next)) => walked = next,
            Ok(None) => return Ok(()),
            Err(code) => return Err(code),
        }
    }
    Ok(())
}

/// Whether the kept instances and the ground size with the goal are sure to be within their limits, where
/// each step costs this much at least and the tried preconditions have the size `tested`.
pub(crate) fn are_surely_within(
    facts: &TaskFacts<'_>,
    kept: &[Rows],
    base: u64,
    tested: u64,
) -> bool
    requires well_formed { IsWellFormed facts.now }
    requires kept { AllZip (AreKept facts.now) facts.now.domain.actions kept.now }
    ensures { result ≡ true → (charges : Charges) → base_cost facts.now charges ≡ base
        → sized facts.now charges tested ≡ Ok tt }
{
    let task = facts.task();
    let actions = task.domain.actions.as_slice();
    let dearest = greatest_value(task.problem.values.as_slice());
    let mut bounded = Bounded {
        instances: 0,
        most: tested,
    };
    for (place, action) in actions.iter().enumerate() {
        match bound_action(facts, base, dearest, action, &kept[place], bounded) {
            Some(next) => bounded = next,
            None => return false,
        }
    }
    let goal = condition_size(facts.table(), &task.problem.goal);
    bounded.most.saturating_add(goal) <= MOST_GROUND_SIZE
}
