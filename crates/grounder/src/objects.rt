//! Objects that are too many, which are refused before a table of them is made.

ghost use Rattle.std.specs.Prelude.{◌≡◌, ◌+◌, ◌<◌, ◌≤◌, ◌^◌, false, nat_le, length, map, IfOk, IfErr};
ghost use Rattle.std.specs.List.{list_any};
ghost use Rattle.ppddl_model.specs.Steps.{base_cost, world};
ghost use Rattle.ground_meaning.specs.declared.refusals.limits.TheConstants.{MOST_OBJECTS};
ghost use Rattle.ground_meaning.specs.refusals.Limits.{grounded};
ghost use Rattle.grounder.specs.costs.Charges.{step_charges, is_free};
ghost use Rattle.task_instances.specs.fact_rows.Adding.{with_names};
ghost use Rattle.grounder.specs.Answers.{terms_of, Refuses};
ghost use Rattle.grounder.specs.ObjectNames.{object_name};

use crate::costs::{may_be_free, penalty_of};
use crate::terms::Terms;
use ground_meaning::{GroundRefusal, LimitCode, MOST_OBJECTS};
use ground_terms::NameSet;
use ppddl_model::{ObjectDecl, Task};
use std::alloc::{AllocError, Global};

/// Puts in the names of declared objects, and counts all names.
fn add_names(
    names: &mut NameSet,
    count: usize,
    declared: &[ObjectDecl],
) -> Result<usize, AllocError>
    requires count { count ≡ length names.old }
    requires room { count + length declared.now < 2 ^ 64 }
    ensures names { IfOk result
        (λ _. names.new ≡ with_names names.old (map object_name declared.now)) }
    ensures count { IfOk result (λ n. n ≡ length names.new) }
    ensures few { IfOk result (λ n. n ≤ count + length declared.now) }
{
    let mut total = count;
    for object in declared {
        let name = object.name.as_slice();
        if names.has(name) {
            continue;
        }
        names.add(name)?;
        total += 1;
    }
    Ok(total)
}

/// Whether a task has at most as many objects and constants as there may be.
fn has_few_objects(alloc: Global, task: &Task) -> Result<bool, AllocError>
    ensures { IfOk result (λ few. few ≡ nat_le (length (world task.now).objects) MOST_OBJECTS) }
{
    let mut names = NameSet::new(alloc);
    let constants = add_names(&mut names, 0, task.domain.constants.as_slice())?;
    let total = add_names(&mut names, constants, task.problem.objects.as_slice())?;
    Ok(total <= MOST_OBJECTS)
}

/// Refuses a task in which no action may cost nothing: one with neither a penalty nor a goal reward, and
/// then one with too many objects.
fn check_objects(alloc: Global, task: &Task, terms: &Terms, base: u64) -> Result<(), GroundRefusal>
    requires base { base ≡ base_cost task.now (step_charges terms.now.step_cost) }
    requires none { list_any (is_free task.now base) task.now.domain.actions ≡ false }
    ensures { IfErr result (Refuses (grounded task.now (terms_of terms.now))) }
{
    match penalty_of(task, terms.penalty, terms.step_cost) {
        Some(_) => {
            if has_few_objects(alloc, task)? {
                return Ok(());
            }
            Err(GroundRefusal::Limit(LimitCode::Objects))
        }
        None => Err(GroundRefusal::NoPenalty {
            line: task.problem.line,
        }),
    }
}

/// Refuses what can be refused before a table of the objects is made: where each action is known to cost
/// something, a task with neither a penalty nor a goal reward, and then one with too many objects.
pub(crate) fn early(
    alloc: Global,
    task: &Task,
    terms: &Terms,
    base: u64,
) -> Result<(), GroundRefusal>
    requires { base ≡ base_cost task.now (step_charges terms.now.step_cost) }
    ensures { IfErr result (Refuses (grounded task.now (terms_of terms.now))) }
{
    let free = may_be_free(alloc, task, base)?;
    if free {
        return Ok(());
    }
    check_objects(alloc, task, terms, base)
}
