//! Kept instances of actions.

ghost use Rattle.std.specs.Prelude.{◌≡◌, ◌<◌, ◌≤◌, true, ℕ, List, [], ◌∷◌, ◌++◌};
ghost use Rattle.std.specs.Prelude.{length, drop, All, IfOk, OnOk};
ghost use Rattle.ppddl_model.specs.Objects.{bindings};
ghost use Rattle.ppddl_model.specs.Steps.{world};
ghost use Rattle.ground_terms.specs.terms.Scopes.{binding_of};
ghost use Rattle.task_instances.specs.facts.Facts.{table_of};
ghost use Rattle.task_instances.specs.kept_rows.Kept.{bound_to, IsAdded, AreKept};
ghost use Rattle.task_instances.specs.kept_rows.Terms.{DecideValues};
ghost use Rattle.task_instances.specs.kept_rows.Patterns.{terms_in, IsTermTest, ArePrepared};
ghost use Rattle.task_instances.specs.kept_rows.Stages.{conditions_of, conjuncts_of, may_hold};
ghost use Rattle.task_instances.specs.kept_rows.Stages.{params_of, AreStages, IsLeft};
ghost use Rattle.task_instances.specs.quantified_atoms.Quantified.{HasAtoms};
ghost use Rattle.task_instances.specs.declared.quantified_atoms.atom_kind.AtomKind.TheVariants.{FunctionTerm};

use crate::facts::TaskFacts;
use crate::kept_rows::rows::Rows;
use crate::kept_rows::stages::{Stage, Stages, stages_of};
use crate::kept_rows::term_test::{TermTest, are_passed, term_tests};
use crate::kept_rows::test::{may_all_hold, may_all_pass};
use crate::kept_rows::valued::are_valued_first;
use crate::quantified_atoms::{AtomKind, QuantifiedAtom, atoms_of};
use ground_terms::{Scope, count_bindings};
use ppddl_model::Action;
use std::alloc::{AllocError, Global};

/// Puts the row of an instance, whose precondition may hold, behind the others, if the function terms have
/// values.
fn add_row(
    alloc: Global,
    facts: &TaskFacts<'_>,
    action: &Action,
    terms: &[TermTest<'_, '_>],
    scope: &Scope<'_>,
    row: &[u32],
    buffer: &mut Vec<usize>,
    rows: &mut Rows,
) -> Result<(), AllocError>
    requires width { rows.old.width ≡ length action.now.params }
    requires long { length row.now ≡ length action.now.params }
    requires within { All (λ o. o < length (table_of facts.now).objects) row.now }
    requires bound { bound_to (table_of facts.now) action.now.params row.now []
        ≡ binding_of scope.now }
    requires terms { DecideValues facts.now action.now (terms_in terms.now) }
    requires valued { All (IsTermTest facts.now action.now.params) terms.now }
    requires open { may_hold facts.now (binding_of scope.now) action.now.condition ≡ true }
    ensures { OnOk result (IsAdded facts.now action.now (binding_of scope.now ∷ [])
        rows.old rows.new) }
{
    let valued = are_passed(alloc, facts, terms, scope, row, buffer)?;
    if valued {
        return rows.push(row);
    }
    Ok(())
}

/// Binds the parameters of the stages in all ways, on top of the scope whose row is given, and puts the
/// rows of kept instances behind the others. A binding is left as soon as a test is known to be false.
fn bind<'x>(
    alloc: Global,
    facts: &'x TaskFacts<'_>,
    action: &Action,
    stages: &'x [Stage<'_>],
    terms: &[TermTest<'_, '_>],
    scope: &'x Scope<'x>,
    row: &mut Vec<u32>,
    buffer: &mut Vec<usize>,
    rows: &mut Rows,
) -> Result<(), AllocError>
    requires width { rows.old.width ≡ length action.now.params }
    requires rest { params_of stages.now ≡ drop (length row.old.items) action.now.params }
    requires long { length row.old.items ≤ length action.now.params }
    requires within { All (λ o. o < length (table_of facts.now).objects) row.old.items }
    requires bound { (rest : List ℕ)
        → bound_to (table_of facts.now) action.now.params (row.old.items ++ rest) []
        ≡ bound_to (table_of facts.now) (params_of stages.now) rest (binding_of scope.now) }
    requires terms { DecideValues facts.now action.now (terms_in terms.now) }
    requires valued { All (IsTermTest facts.now action.now.params) terms.now }
    requires prepared { ArePrepared facts.now action.now.params (length row.old.items) stages.now }
    requires left { IsLeft facts.now action.now.condition stages.now (binding_of scope.now) }
    ensures row { OnOk result (row.new.items ≡ row.old.items) }
    ensures rows { OnOk result (IsAdded facts.now action.now
        (bindings (world facts.now) (params_of stages.now) (binding_of scope.now)) rows.old rows.new) }
{
    if stages.is_empty() {
        return add_row(
            alloc,
            &*facts,
            action,
            &*terms,
            &*scope,
            row.as_slice(),
            buffer,
            rows,
        );
    }
    let stage = &stages[0];
    let bound = row.len();
    for object in stage.objects.as_slice() {
        let inside = Scope::Bound(
            stage.param.name.as_slice(),
            (&*facts).table().object_name(*object),
            &*scope,
        );
        row.push(*object)?;
        let may = may_all_pass(
            alloc,
            &*facts,
            stage.tests.as_slice(),
            &inside,
            row.as_slice(),
            &mut *buffer,
        )?;
        if !may {
            row.truncate(bound);
            continue;
        }
        bind(
            alloc,
            &*facts,
            &*action,
            &stages[1..],
            &*terms,
            &inside,
            &mut *row,
            &mut *buffer,
            &mut *rows,
        )?;
        row.truncate(bound);
    }
    Ok(())
}

/// Binds the parameters of the stages in all ways, and puts the rows of kept instances behind the others,
/// unless a function term that names no parameter has no value.
fn bind_terms(
    alloc: Global,
    facts: &TaskFacts<'_>,
    action: &Action,
    stages: &[Stage<'_>],
    terms: &[QuantifiedAtom<'_>],
    rows: &mut Rows,
) -> Result<(), AllocError>
    requires width { rows.old.width ≡ length action.now.params }
    requires params { params_of stages.now ≡ action.now.params }
    requires terms { HasAtoms (world facts.now) FunctionTerm action.now.effect terms.now }
    requires prepared { ArePrepared facts.now action.now.params 0 stages.now }
    requires left { IsLeft facts.now action.now.condition stages.now [] }
    ensures { OnOk result (IsAdded facts.now action.now
        (bindings (world facts.now) action.now.params []) rows.old rows.new) }
{
    let valued = are_valued_first(alloc, facts, terms)?;
    if !valued {
        return Ok(());
    }
    let tests = term_tests(alloc, facts, action.params.as_slice(), terms)?;
    let mut row = Vec::new(alloc);
    let mut buffer = Vec::new(alloc);
    let bound = bind(
        alloc,
        facts,
        action,
        stages,
        tests.as_slice(),
        &Scope::Empty,
        &mut row,
        &mut buffer,
        rows,
    );
    drop(tests);
    bound
}

/// Binds the parameters of an action in all ways, and puts the rows of kept instances behind the others,
/// unless a test that comes before any of them is known to be false.
fn bind_stages(
    alloc: Global,
    facts: &TaskFacts<'_>,
    action: &Action,
    stages: &Stages<'_>,
    rows: &mut Rows,
) -> Result<(), AllocError>
    requires width { rows.old.width ≡ length action.now.params }
    requires stages { AreStages (table_of facts.now) action.now.params
        (conjuncts_of action.now.condition) (conditions_of stages.now.first.items)
        stages.now.stages.items }
    requires prepared { ArePrepared facts.now action.now.params 0 stages.now.stages.items }
    ensures { OnOk result (IsAdded facts.now action.now
        (bindings (world facts.now) action.now.params []) rows.old rows.new) }
{
    let may = may_all_hold(alloc, facts, stages.first.as_slice(), &Scope::Empty)?;
    if !may {
        return Ok(());
    }
    let terms = atoms_of(alloc, facts, AtomKind::FunctionTerm, &action.effect)?;
    let bound = bind_terms(
        alloc,
        facts,
        action,
        stages.stages.as_slice(),
        terms.as_slice(),
        rows,
    );
    drop(terms);
    bound
}

/// The kept instances of an action, in lexicographic order, the last parameter fastest: for each the
/// numbers of its objects. It is refused for want of memory alone.
pub fn kept_bindings(
    alloc: Global,
    facts: &TaskFacts<'_>,
    action: &Action,
) -> Result<Rows, AllocError>
    ensures { IfOk result (AreKept facts.now action.now) }
{
    let params = action.params.as_slice();
    let mut rows = Rows::new(alloc, params.len());
    if count_bindings(facts.table(), params) == 0 {
        return Ok(rows);
    }
    let stages = stages_of(alloc, facts, action)?;
    let bound = bind_stages(alloc, facts, action, &stages, &mut rows);
    drop(stages);
    bound?;
    Ok(rows)
}
