//! What is known of conditions beforehand.

ghost use Rattle.std.specs.Prelude.{◌≡◌, IfOk, map};
ghost use Rattle.ppddl_model.specs.declared.tree.Condition.{Condition};
ghost use Rattle.ppddl_model.specs.Known.{known_not};
ghost use Rattle.ppddl_model.specs.Objects.{bindings, named};
ghost use Rattle.ppddl_model.specs.State.{same_name};
ghost use Rattle.ground_terms.specs.sizes.Typed.{IsTyped};
ghost use Rattle.task_instances.specs.known_conditions.Known.{known_in, joined, joined_each, AreKeys};
ghost use Rattle.ground_terms.specs.terms.Scopes.{binding_of};

use crate::known_conditions::first_facts::{FirstFacts, known_atom};
use ground_terms::{Scope, count_bindings, named, objects_of};
use ppddl_model::{Condition, Param, Term};
use std::alloc::{AllocError, Global};
use type_table::TypeTable;

/// Kleene's negation.
fn known_not(known: Option<bool>) -> Option<bool>
    ensures { result ≡ known_not known }
{
    match known {
        Some(holds) => Some(!holds),
        None => None,
    }
}

/// Kleene's conjunction, or his disjunction.
fn joined(all: bool, first: Option<bool>, second: Option<bool>) -> Option<bool>
    ensures { result ≡ joined all first second }
{
    match first {
        Some(holds) => { if holds == all { second } else { first } }
        None => match second {
            Some(holds) => { if holds == all { None } else { second } }
            None => None,
        },
    }
}

/// Whether both terms name one object.
fn is_same(scope: &Scope<'_>, first: &Term, second: &Term) -> bool
    ensures { result ≡ same_name (named (binding_of scope.now) first.now)
        (named (binding_of scope.now) second.now) }
{
    named(scope, first) == named(scope, second)
}

/// What is known of a condition: true, false, or nothing, by Kleene's strong three-valued logic.
#[cycle(knowing)]
pub fn known(
    alloc: Global,
    table: &TypeTable,
    facts: &FirstFacts<'_>,
    condition: &Condition,
    scope: &Scope<'_>,
) -> Result<Option<bool>, AllocError>
    requires typed { IsTyped table.now }
    requires keys { AreKeys facts.now.keys facts.now.init.now }
    ensures { IfOk result (λ k. k
        ≡ known_in table.now facts.now.changing facts.now.init.now condition.now (binding_of scope.now)) }
{
    match condition {
        Condition::Atom(atom) => known_atom(alloc, facts, atom, scope),
        Condition::Equal(first, second) => Ok(Some(is_same(scope, first, second))),
        Condition::Not(inner) => Ok(known_not(known(
            alloc,
            &*table,
            &*facts,
            inner.get(),
            &*scope,
        )?)),
        Condition::All(parts) => known_parts(
            alloc,
            &*table,
            &*facts,
            true,
            parts.as_slice(),
            &*scope,
        ),
        Condition::Any(parts) => known_parts(
            alloc,
            &*table,
            &*facts,
            false,
            parts.as_slice(),
            &*scope,
        ),
        Condition::Imply(first, second) => {
            let refuted = known_not(known(alloc, &*table, &*facts, first.get(), &*scope)?);
            let follows = known(alloc, &*table, &*facts, second.get(), &*scope)?;
            Ok(joined(false, refuted, follows))
        }
        Condition::Exists(variables, inner) => known_quantified(
            alloc,
            &*table,
            &*facts,
            false,
            variables.as_slice(),
            inner.get(),
            &*scope,
        ),
        Condition::Forall(variables, inner) => known_quantified(
            alloc,
            &*table,
            &*facts,
            true,
            variables.as_slice(),
            inner.get(),
            &*scope,
        ),
    }
}

/// What is known of all of the conditions, or of any of them.
#[cycle(knowing)]
fn known_parts(
    alloc: Global,
    table: &TypeTable,
    facts: &FirstFacts<'_>,
    all: bool,
    parts: &[Condition],
    scope: &Scope<'_>,
) -> Result<Option<bool>, AllocError>
    requires typed { IsTyped table.now }
    requires keys { AreKeys facts.now.keys facts.now.init.now }
    ensures { IfOk result (λ k. k ≡ joined_each all (map (λ (c : Condition).
        known_in table.now facts.now.changing facts.now.init.now c (binding_of scope.now)) parts.now)) }
{
    let mut known_so_far = Some(all);
    for part in parts {
        let here = known(alloc, &*table, &*facts, part, &*scope)?;
        known_so_far = joined(all, known_so_far, here);
        if known_so_far == Some(!all) {
            return Ok(known_so_far);
        }
    }
    Ok(known_so_far)
}

/// What is known of a condition under all ways to bind the variables, or under any of them. Where a variable
/// has no objects there are none, and the others are not bound, however many objects they have.
#[cycle(knowing)]
fn known_quantified(
    alloc: Global,
    table: &TypeTable,
    facts: &FirstFacts<'_>,
    all: bool,
    variables: &[Param],
    inner: &Condition,
    scope: &Scope<'_>,
) -> Result<Option<bool>, AllocError>
    requires typed { IsTyped table.now }
    requires keys { AreKeys facts.now.keys facts.now.init.now }
    ensures { IfOk result (λ k. k ≡ joined_each all (map
        (known_in table.now facts.now.changing facts.now.init.now inner.now)
        (bindings table.now variables.now (binding_of scope.now)))) }
{
    if count_bindings(table, variables) == 0 {
        return Ok(Some(all));
    }
    known_bound(alloc, &*table, &*facts, all, &*variables, &*inner, &*scope)
}

/// What is known of a condition under all ways to bind the variables, or under any of them.
#[cycle(knowing)]
fn known_bound<'x>(
    alloc: Global,
    table: &'x TypeTable,
    facts: &FirstFacts<'_>,
    all: bool,
    variables: &'x [Param],
    inner: &Condition,
    scope: &'x Scope<'x>,
) -> Result<Option<bool>, AllocError>
    requires typed { IsTyped table.now }
    requires keys { AreKeys facts.now.keys facts.now.init.now }
    ensures { IfOk result (λ k. k ≡ joined_each all (map
        (known_in table.now facts.now.changing facts.now.init.now inner.now)
        (bindings table.now variables.now (binding_of scope.now)))) }
{
    if variables.is_empty() {
        return known(alloc, &*table, &*facts, &*inner, &*scope);
    }
    let first = &variables[0];
    let objects = objects_of(alloc, table, first)?;
    let mut known_so_far = Some(all);
    for object in objects.as_slice() {
        let inside = Scope::Bound(
            first.name.as_slice(),
            (&*table).object_name(*object),
            &*scope,
        );
        let here = known_bound(
            alloc,
            &*table,
            &*facts,
            all,
            &variables[1..],
            &*inner,
            &inside,
        )?;
        known_so_far = joined(all, known_so_far, here);
        if known_so_far == Some(!all) {
            return Ok(known_so_far);
        }
    }
    Ok(known_so_far)
}
