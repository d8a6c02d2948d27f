//! Facts, and function terms that have values, as rows of numbers.

ghost use Rattle.std.specs.Prelude.{◌≡◌, flat_map, IfOk, OnOk};
ghost use Rattle.ppddl_model.specs.Changing.{fact_atoms};
ghost use Rattle.task_instances.specs.fact_rows.Rows.{with_atoms};
ghost use Rattle.task_instances.specs.facts.Adding.{value_atoms};
ghost use Rattle.task_instances.specs.facts.Facts.{table_of, AreFactRows, AreTermRows};

use crate::fact_rows::AtomRows;
use ppddl_model::{InitItem, Task, ValueItem};
use std::alloc::{AllocError, Global};
use type_table::TypeTable;

/// The facts, and the function terms that have values, by number.
#[derive(Drop)]
pub(super) struct NumberedFacts {
    pub(super) facts: AtomRows,
    pub(super) terms: AtomRows,
}

/// Puts in the fact that an item of `:init` names, if it names one.
fn add_fact(
    alloc: Global,
    rows: &mut AtomRows,
    table: &TypeTable,
    item: &InitItem,
) -> Result<(), AllocError>
    ensures { OnOk result (rows.new ≡ with_atoms table.now rows.old (fact_atoms item.now)) }
{
    match item {
        InitItem::Fact(atom) => rows.add(alloc, table, atom),
        InitItem::Chance(_) | InitItem::Value(_) => Ok(()),
    }
}

/// Puts in the facts that items of `:init` name.
fn add_facts(
    alloc: Global,
    rows: &mut AtomRows,
    table: &TypeTable,
    items: &[InitItem],
) -> Result<(), AllocError>
    ensures { OnOk result (rows.new
        ≡ with_atoms table.now rows.old (flat_map fact_atoms items.now)) }
{
    for item in items {
        add_fact(alloc, rows, table, item)?;
    }
    Ok(())
}

/// The facts of `:init`.
fn rows_of_facts(alloc: Global, table: &TypeTable, task: &Task) -> Result<AtomRows, AllocError>
    requires { table.now ≡ table_of task.now }
    ensures { IfOk result (AreFactRows task.now) }
{
    let mut rows = AtomRows::new(alloc, task.domain.predicates.as_slice())?;
    match add_facts(alloc, &mut rows, table, task.problem.init.as_slice()) {
        Ok(()) => Ok(rows),
        Err(refusal) => {
            drop(rows);
            Err(refusal)
        }
    }
}

/// Puts in the function terms to which values are given.
fn add_terms(
    alloc: Global,
    rows: &mut AtomRows,
    table: &TypeTable,
    items: &[ValueItem],
) -> Result<(), AllocError>
    ensures { OnOk result (rows.new
        ≡ with_atoms table.now rows.old (flat_map value_atoms items.now)) }
{
    for item in items {
        rows.add(alloc, table, &item.function)?;
    }
    Ok(())
}

/// The function terms to which `:init` gives values.
fn rows_of_terms(alloc: Global, table: &TypeTable, task: &Task) -> Result<AtomRows, AllocError>
    requires { table.now ≡ table_of task.now }
    ensures { IfOk result (AreTermRows task.now) }
{
    let mut rows = AtomRows::new(alloc, task.domain.functions.as_slice())?;
    match add_terms(alloc, &mut rows, table, task.problem.values.as_slice()) {
        Ok(()) => Ok(rows),
        Err(refusal) => {
            drop(rows);
            Err(refusal)
        }
    }
}

/// The facts of a task, and the function terms that have values, by number.
pub(super) fn numbered_facts(
    alloc: Global,
    table: &TypeTable,
    task: &Task,
) -> Result<NumberedFacts, AllocError>
    requires { table.now ≡ table_of task.now }
    ensures facts { IfOk result (λ n. AreFactRows task.now n.facts) }
    ensures terms { IfOk result (λ n. AreTermRows task.now n.terms) }
{
    let facts = rows_of_facts(alloc, table, task)?;
    match rows_of_terms(alloc, table, task) {
        Ok(terms) => Ok(NumberedFacts { facts, terms }),
        Err(refusal) => {
            drop(facts);
            Err(refusal)
        }
    }
}
