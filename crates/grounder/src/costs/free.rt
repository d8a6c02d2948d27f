//! Actions that may cost nothing.

ghost use Rattle.std.specs.Prelude.{◌≡◌, true, false, IfOk};
ghost use Rattle.std.specs.Option.{option_map};
ghost use Rattle.std.specs.List.{find, list_any};
ghost use Rattle.grounder.specs.costs.Charges.{is_free, line_of};

use ground_terms::{LeastValues, unconditional_cost};
use ppddl_model::{Action, Task};
use std::alloc::{AllocError, Global};
use task_instances::TaskFacts;
use type_table::TypeTable;

/// Whether an action may cost nothing, with this base cost.
fn is_free(facts: &TaskFacts<'_>, least: &LeastValues<'_>, base: u64, action: &Action) -> bool
    requires { least.now ≡ facts.now.problem.values }
    ensures { result ≡ is_free facts.now base action.now }
{
    let cost = unconditional_cost(facts.table(), least, &action.effect);
    cost == 0 && base == 0
}

/// The line of the first action that may cost nothing, with this base cost.
pub fn first_free(facts: &TaskFacts<'_>, least: &LeastValues<'_>, base: u64) -> Option<u32>
    requires { least.now ≡ facts.now.problem.values }
    ensures { result
        ≡ option_map line_of (find (is_free facts.now base) facts.now.domain.actions) }
{
    for action in facts.task().domain.actions.as_slice() {
        if is_free(facts, least, base, action) {
            return Some(action.line);
        }
    }
    None
}

/// Whether each action costs something even where no type has objects, so that no table of the objects is
/// needed to know that none may cost nothing.
fn all_cost(alloc: Global, task: &Task) -> Result<bool, AllocError>
    ensures { IfOk result
        (λ all. all ≡ true → list_any (is_free task.now 0) task.now.domain.actions ≡ false) }
{
    let least = LeastValues::new(alloc, task.problem.values.as_slice())?;
    let Ok(table) = TypeTable::make(alloc, task.domain.types.as_slice(), &[]) else {
        drop(least);
        return Err(AllocError);
    };
    for action in task.domain.actions.as_slice() {
        let cost = unconditional_cost(&table, &least, &action.effect);
        if cost == 0 {
            return Ok(false);
        }
    }
    Ok(true)
}

/// Whether an action may cost nothing with this base cost, as far as it is known before a table of the
/// objects is made. Where the answer is no, none may.
pub fn may_be_free(alloc: Global, task: &Task, base: u64) -> Result<bool, AllocError>
    ensures { IfOk result
        (λ may. may ≡ false → list_any (is_free task.now base) task.now.domain.actions ≡ false) }
{
    if base == 0 {
        let all_cost = all_cost(alloc, task)?;
        return Ok(!all_cost);
    }
    Ok(false)
}
