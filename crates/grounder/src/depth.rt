//! How many variables are bound at once while a task is grounded.

ghost use Rattle.ground_terms.specs.sizes.Typed.{IsTyped};

use ground_terms::count_bindings;
use ppddl_model::{Action, Condition, Effect, Param};
use task_instances::TaskFacts;
use type_table::TypeTable;

/// The most variables that are bound at once. Each stands on the stack of the call that binds it, and takes
/// a few kilobytes at most there.
const MOST_BOUND: usize = 1024;

/// How many of these variables are bound at once: none where one of them has no objects.
fn count_bound(table: &TypeTable, variables: &[Param]) -> usize
    requires { IsTyped table.now }
{
    if count_bindings(table, variables) == 0 {
        return 0;
    }
    variables.len()
}

/// How many variables of a condition are bound at once.
fn depth_of_condition(table: &TypeTable, condition: &Condition) -> usize
    requires { IsTyped table.now }
{
    match condition {
        Condition::Atom(_) | Condition::Equal(..) => 0,
        Condition::Not(inner) => depth_of_condition(table, inner.get()),
        Condition::All(parts) | Condition::Any(parts) => {
            let mut depth: usize = 0;
            for part in parts.as_slice() {
                depth = depth.max(depth_of_condition(table, part));
            }
            depth
        }
        Condition::Imply(first, second) => {
            depth_of_condition(table, first.get()).max(depth_of_condition(table, second.get()))
        }
        Condition::Exists(variables, inner) | Condition::Forall(variables, inner) => {
            count_bound(table, variables.as_slice()).saturating_add(depth_of_condition(
                table,
                inner.get(),
            ))
        }
    }
}

/// How many variables of an effect are bound at once.
fn depth_of_effect(table: &TypeTable, effect: &Effect) -> usize
    requires { IsTyped table.now }
{
    match effect {
        Effect::Both(parts) => {
            let mut depth: usize = 0;
            for part in parts.as_slice() {
                depth = depth.max(depth_of_effect(table, part));
            }
            depth
        }
        Effect::Forall(variables, inner) => count_bound(table, variables.as_slice()).saturating_add(
            depth_of_effect(table, inner.get()),
        ),
        Effect::When(condition, inner) => {
            depth_of_condition(table, condition).max(depth_of_effect(table, inner.get()))
        }
        Effect::Chance(branches) => {
            let mut depth: usize = 0;
            for branch in branches.as_slice() {
                depth = depth.max(depth_of_effect(table, &branch.effect));
            }
            depth
        }
        _ => 0,
    }
}

/// How many variables of an action are bound at once.
fn depth_of_action(table: &TypeTable, action: &Action) -> usize
    requires { IsTyped table.now }
{
    let inner = depth_of_condition(table, &action.condition).max(depth_of_effect(
        table,
        &action.effect,
    ));
    count_bound(table, action.params.as_slice()).saturating_add(inner)
}

/// Whether the goal or an action binds more variables at once than the stack is sure to hold.
pub(crate) fn is_deep(facts: &TaskFacts<'_>) -> bool {
    let task = facts.task();
    if depth_of_condition(facts.table(), &task.problem.goal) > MOST_BOUND {
        return true;
    }
    for action in task.domain.actions.as_slice() {
        if depth_of_action(facts.table(), action) > MOST_BOUND {
            return true;
        }
    }
    false
}
