//! What never changes in a task.

ghost use Rattle.std.specs.Prelude.{◌≡◌, [], None, cond, flat_map, IfOk};
ghost use Rattle.std.specs.List.{list_any};
ghost use Rattle.ppddl_model.specs.State.{same_name};
ghost use Rattle.ppddl_model.specs.Objects.{ground_atom};
ghost use Rattle.ppddl_model.specs.Functions.{has_value};
ghost use Rattle.ppddl_model.specs.Steps.{world};
ghost use Rattle.ppddl_model.specs.Changing.{changing_predicates, known_of};
ghost use Rattle.ppddl_model.specs.WellFormed.{IsWellFormed};
ghost use Rattle.type_table.specs.Numbered.{number_of};
ghost use Rattle.ground_terms.specs.terms.Scopes.{binding_of};
ghost use Rattle.ground_terms.specs.sizes.Typed.{IsTyped};
ghost use Rattle.task_instances.specs.fact_rows.Adding.{with_names};
ghost use Rattle.task_instances.specs.facts.Adding.{fact_keys};
ghost use Rattle.task_instances.specs.facts.Facts.{table_of, predicate_names, function_names};
ghost use Rattle.task_instances.specs.facts.Facts.{IsFactRow, fact_at, is_fact, IsTermRow, term_at};

use crate::facts::keys::{keys_of_facts, keys_of_values};
use crate::facts::objects::objects_of_task;
use crate::facts::predicates::changing_predicates;
use crate::facts::rows::{NumberedFacts, numbered_facts};
use crate::known_conditions::{FirstFacts, known};
use ground_terms::{NameSet, Scope, atom_key};
use ppddl_model::{Atom, Condition, Task};
use std::alloc::{AllocError, Global};
use std::marker::Model;
use type_table::TypeTable;

/// What never changes in a well-formed task: its types and objects, which predicates may change, the
/// facts of `:init` and the function terms that have values. Contracts see the task.
#[derive(Drop)]
pub struct TaskFacts<'a> {
    task: &'a Task,
    table: TypeTable,
    facts: FirstFacts<'a>,
    valued: NameSet,
    numbered: NumberedFacts,
}

impl<'a> Model for TaskFacts<'a> {
    ghost use Rattle.std.specs.Coded.{codes};
    ghost use Rattle.ppddl_model.specs.contracts.tree.Condition as condition;
    ghost use Rattle.ppddl_model.specs.contracts.tree.Effect as effect;
    ghost use Rattle.ppddl_model.specs.declared.tree.Task.{Task};
    ghost use Rattle.task_instances.specs.facts.Facts.{AreFactsOf};

    ghost Value = { Task };

    ghost coded = { Prim.hlevel (codes, condition.the_row.coded, effect.the_row.coded) };

    ghost view = { λ f. f.task.now };

    ghost invariant = { λ f. AreFactsOf f.task.now f.table f.facts.changing f.facts.keys
        f.facts.init.now f.valued f.numbered.facts f.numbered.terms };
}

/// The types and objects of a task. It is refused for want of memory alone, since a well-formed task has
/// no cycle of types.
fn table(alloc: Global, task: &Task) -> Result<TypeTable, AllocError>
    requires { IsWellFormed task.now }
    ensures { IfOk result (λ table. table ≡ table_of task.now) }
{
    let objects = objects_of_task(alloc, task)?;
    match TypeTable::make(alloc, task.domain.types.as_slice(), objects.as_slice()) {
        Ok(table) => Ok(table),
        Err(_) => Err(AllocError),
    }
}

/// What is known of atoms beforehand. It is refused for want of memory alone.
fn first_facts<'a>(alloc: Global, task: &'a Task) -> Result<FirstFacts<'a>, AllocError>
    ensures changing { IfOk result
        (λ f. f.changing ≡ with_names [] (changing_predicates task.now)) }
    ensures init { IfOk result (λ f. f.init.now ≡ task.now.problem.init) }
    ensures keys { IfOk result (λ f. f.keys ≡ with_names [] (flat_map fact_keys f.init.now)) }
{
    let changing = changing_predicates(alloc, task)?;
    let init = task.problem.init.as_slice();
    match keys_of_facts(alloc, init) {
        Ok(keys) => Ok(FirstFacts {
            changing,
            init,
            keys,
        }),
        Err(refusal) => {
            drop(changing);
            Err(refusal)
        }
    }
}

impl<'a> TaskFacts<'a> {
    /// What never changes in this task. It is refused for want of memory alone.
    pub fn make(alloc: Global, task: &'a Task) -> Result<TaskFacts<'a>, AllocError>
        requires { IsWellFormed task.now }
        ensures { IfOk result (λ facts. facts ≡ task.now) }
    {
        let table = table(alloc, task)?;
        let Ok(facts) = first_facts(alloc, task) else {
            drop(table);
            return Err(AllocError);
        };
        let Ok(valued) = keys_of_values(alloc, task.problem.values.as_slice()) else {
            drop(table);
            drop(facts);
            return Err(AllocError);
        };
        let Ok(numbered) = numbered_facts(alloc, &table, task) else {
            drop(table);
            drop(facts);
            drop(valued);
            return Err(AllocError);
        };
        Ok(TaskFacts {
            task,
            table,
            facts,
            valued,
            numbered,
        })
    }

    /// The task.
    pub fn task(&self) -> &'a Task
        ensures { result.now ≡ self.now }
    {
        self.task
    }

    /// Its types and objects.
    pub fn table(&self) -> &TypeTable
        ensures table { result.now ≡ table_of self.now }
        ensures typed { IsTyped result.now }
    {
        &self.table
    }

    /// What is known of a condition in every reachable state.
    pub fn known(
        &self,
        alloc: Global,
        condition: &Condition,
        scope: &Scope<'_>,
    ) -> Result<Option<bool>, AllocError>
        ensures { IfOk result (λ k. k ≡ known_of self.now condition.now (binding_of scope.now)) }
    {
        known(alloc, &self.table, &self.facts, condition, scope)
    }

    /// Whether a function term has a value.
    pub fn has_value(
        &self,
        alloc: Global,
        term: &Atom,
        scope: &Scope<'_>,
    ) -> Result<bool, AllocError>
        ensures { IfOk result (λ has. has
            ≡ has_value (world self.now) (ground_atom (binding_of scope.now) term.now)) }
    {
        let key = atom_key(alloc, scope, term)?;
        Ok(self.valued.has(key.as_slice()))
    }

    /// The number of a predicate that no step changes, None where it may change.
    pub fn fact_number(&self, predicate: &[u8]) -> Option<usize>
        ensures { result ≡ cond (list_any (same_name predicate.now) (changing_predicates self.now))
            None (number_of (predicate_names self.now) predicate.now) }
    {
        if self.facts.changing.has(predicate) {
            return None;
        }
        self.numbered.facts.number_of(predicate)
    }

    /// Whether the ground atom of a row of numbers is a fact of `:init`.
    pub fn is_fact(&self, row: &[usize]) -> bool
        requires { IsFactRow self.now row.now }
        ensures { result ≡ is_fact self.now (fact_at self.now row.now) }
    {
        self.numbered.facts.has(row)
    }

    /// The number of a function.
    pub fn function_number(&self, function: &[u8]) -> Option<usize>
        ensures { result ≡ number_of (function_names self.now) function.now }
    {
        self.numbered.terms.number_of(function)
    }

    /// Whether the function term of a row of numbers has a value.
    pub fn is_valued(&self, row: &[usize]) -> bool
        requires { IsTermRow self.now row.now }
        ensures { result ≡ has_value (world self.now) (term_at self.now row.now) }
    {
        self.numbered.terms.has(row)
    }
}
