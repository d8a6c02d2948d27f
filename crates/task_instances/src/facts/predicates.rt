//! The predicates that may change.

ghost use Rattle.std.specs.Prelude.{◌≡◌, [], flat_map, map, IfOk, OnOk};
ghost use Rattle.ppddl_model.specs.declared.tree.Action.{Action};
ghost use Rattle.ppddl_model.specs.declared.tree.InitBranch.{InitBranch};
ghost use Rattle.ppddl_model.specs.Changing.{predicates_of, chance_predicates, changing_predicates};
ghost use Rattle.task_instances.specs.fact_rows.Adding.{with_names};
ghost use Rattle.task_instances.specs.facts.Adding.{predicate_of, branch_predicates};

use ground_terms::NameSet;
use ppddl_model::{Action, Atom, Effect, InitBranch, InitItem, Task};
use std::alloc::{AllocError, Global};

/// Puts in the predicates that the literals of an effect name.
fn add_predicates(names: &mut NameSet, effect: &Effect) -> Result<(), AllocError>
    ensures { OnOk result (names.new ≡ with_names names.old (predicates_of effect.now)) }
{
    match effect {
        Effect::Add(atom) | Effect::Delete(atom) => names.add(atom.predicate.as_slice())?,
        Effect::Both(parts) => {
            for part in parts.as_slice() {
                add_predicates(names, part)?;
            }
        }
        Effect::Forall(_, inner) => add_predicates(names, inner.get())?,
        Effect::When(_, inner) => add_predicates(names, inner.get())?,
        Effect::Chance(branches) => {
            for branch in branches.as_slice() {
                add_predicates(names, &branch.effect)?;
            }
        }
        Effect::Cost(_) | Effect::CostOf(_) => {}
    }
    Ok(())
}

/// Puts in the predicates that the effects of the actions name.
fn add_of_actions(names: &mut NameSet, actions: &[Action]) -> Result<(), AllocError>
    ensures { OnOk result (names.new
        ≡ with_names names.old (flat_map (λ (a : Action). predicates_of a.effect) actions.now)) }
{
    for action in actions {
        add_predicates(names, &action.effect)?;
    }
    Ok(())
}

/// Puts in the predicates of the atoms.
fn add_of_atoms(names: &mut NameSet, atoms: &[Atom]) -> Result<(), AllocError>
    ensures { OnOk result (names.new ≡ with_names names.old (map predicate_of atoms.now)) }
{
    for atom in atoms {
        names.add(atom.predicate.as_slice())?;
    }
    Ok(())
}

/// Puts in the predicates that the branches of an item of `:init` name.
fn add_of_branches(names: &mut NameSet, branches: &[InitBranch]) -> Result<(), AllocError>
    ensures { OnOk result (names.new
        ≡ with_names names.old (flat_map branch_predicates branches.now)) }
{
    for branch in branches {
        add_of_atoms(names, branch.atoms.as_slice())?;
    }
    Ok(())
}

/// Puts in the predicates that an item of `:init` names by chance.
fn add_of_item(names: &mut NameSet, item: &InitItem) -> Result<(), AllocError>
    ensures { OnOk result (names.new ≡ with_names names.old (chance_predicates item.now)) }
{
    match item {
        InitItem::Chance(branches) => add_of_branches(names, branches.as_slice()),
        InitItem::Fact(_) | InitItem::Value(_) => Ok(()),
    }
}

/// Puts in the predicates that items of `:init` name by chance.
fn add_of_items(names: &mut NameSet, items: &[InitItem]) -> Result<(), AllocError>
    ensures { OnOk result (names.new
        ≡ with_names names.old (flat_map chance_predicates items.now)) }
{
    for item in items {
        add_of_item(names, item)?;
    }
    Ok(())
}

/// The predicates that may change, each once. It is refused for want of memory alone.
pub(super) fn changing_predicates(alloc: Global, task: &Task) -> Result<NameSet, AllocError>
    ensures { IfOk result (λ names. names ≡ with_names [] (changing_predicates task.now)) }
{
    let mut names = NameSet::new(alloc);
    add_of_actions(&mut names, task.domain.actions.as_slice())?;
    add_of_items(&mut names, task.problem.init.as_slice())?;
    Ok(names)
}
