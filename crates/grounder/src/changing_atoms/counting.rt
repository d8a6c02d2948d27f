//! How many literals the kept instances of a task have.

ghost use Rattle.std.specs.List.{AllZip};
ghost use Rattle.task_instances.specs.kept_rows.Kept.{AreKept};

use ground_meaning::MOST_GROUND_SIZE;
use ground_terms::count_objects;
use ppddl_model::{Action, Param};
use std::alloc::{AllocError, Global};
use task_instances::{AtomKind, QuantifiedAtom, Rows, TaskFacts, atoms_of, is_settled};

/// In how many ways these variables can be bound.
fn count_ways(facts: &TaskFacts<'_>, variables: &[&Param]) -> u64 {
    let mut count: u64 = 1;
    for variable in variables {
        count = count.saturating_mul(count_objects(facts.table(), *variable) as u64);
    }
    count
}

/// How often an atom is put in where an action has so many kept instances: once for all of them if it names
/// no parameter.
fn count_atom(facts: &TaskFacts<'_>, quantified: &QuantifiedAtom<'_>, instances: u64) -> u64 {
    let ways = count_ways(facts, quantified.variables.as_slice());
    if is_settled(quantified) {
        return ways;
    }
    ways.saturating_mul(instances)
}

/// How many texts the literals of an action are put in as, where it has so many kept instances.
fn count_action(
    alloc: Global,
    facts: &TaskFacts<'_>,
    action: &Action,
    instances: u64,
) -> Result<u64, AllocError> {
    let atoms = atoms_of(alloc, facts, AtomKind::Literal, &action.effect)?;
    let mut count: u64 = 0;
    for quantified in atoms.as_slice() {
        count = count.saturating_add(count_atom(facts, quantified, instances));
    }
    Ok(count)
}

/// Whether the kept instances have more literals than the ground size may be. Each counts in it, so such a
/// task is refused in any case, and its literals are not listed.
pub(super) fn are_too_many(
    alloc: Global,
    facts: &TaskFacts<'_>,
    actions: &[Action],
    kept: &[Rows],
) -> Result<bool, AllocError>
    requires { AllZip (AreKept facts.now) actions.now kept.now }
{
    let mut count: u64 = 0;
    for (place, action) in actions.iter().enumerate() {
        let instances = kept[place].len() as u64;
        if instances > 0 {
            count = count.saturating_add(count_action(alloc, facts, action, instances)?);
        }
    }
    Ok(count > MOST_GROUND_SIZE)
}
