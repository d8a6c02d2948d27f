//! Conditions under a binding.

ghost use Rattle.std.specs.Prelude.{◌≡◌, ◌++◌, ◌∷◌, [], map, IfOk};
ghost use Rattle.ppddl_model.specs.declared.tree.Condition.{Condition};
ghost use Rattle.ppddl_model.specs.Objects.{bindings, named};
ghost use Rattle.ppddl_model.specs.State.{same_name};
ghost use Rattle.ground_meaning.specs.choices.Numbering.{ground_condition};
ghost use Rattle.ground_terms.specs.terms.Scopes.{binding_of};
ghost use Rattle.ground_terms.specs.sizes.Typed.{IsTyped};
ghost use Rattle.outcome_dist.specs.conditions.Bindings.{world_of, numbering_of};

use crate::conditions::atoms::{constant, grounded_atom};
use crate::conditions::binding::Binding;
use ground_model::{Boxed, GroundCondition, List};
use ground_terms::{Scope, count_bindings, named, objects_of};
use ppddl_model::{Condition, Param, Term};
use std::alloc::{AllocError, Global};

/// Whether both terms name one object.
fn is_same(scope: &Scope<'_>, first: &Term, second: &Term) -> bool
    ensures { result ≡ same_name (named (binding_of scope.now) first.now)
        (named (binding_of scope.now) second.now) }
{
    named(scope, first) == named(scope, second)
}

/// Two conditions as a list.
fn both(
    alloc: Global,
    first: GroundCondition,
    second: GroundCondition,
) -> Result<List<GroundCondition>, AllocError>
    ensures { IfOk result (λ l. l ≡ first ∷ second ∷ []) }
{
    let mut parts = Vec::with_capacity(alloc, 2)?;
    parts.push(first)?;
    parts.push(second)?;
    Ok(List::from_vec(parts))
}

/// A condition as one on packed states, form by form: quantifiers are expanded, and equalities and
/// atoms without numbers are constants. It is refused for want of memory alone.
#[cycle(grounding)]
pub fn ground_condition(
    alloc: Global,
    within: &Binding<'_>,
    condition: &Condition,
    scope: &Scope<'_>,
) -> Result<GroundCondition, AllocError>
    requires { IsTyped within.now.table.now }
    ensures { IfOk result (λ g. g
        ≡ ground_condition (world_of within.now) (numbering_of within.now) condition.now (binding_of scope.now)) }
{
    match condition {
        Condition::Atom(atom) => grounded_atom(alloc, &*within, atom, &*scope),
        Condition::Equal(first, second) => Ok(constant(is_same(&*scope, first, second))),
        Condition::Not(inner) => {
            let denied = ground_condition(alloc, &*within, inner.get(), &*scope)?;
            Ok(GroundCondition::Not(Boxed::new(alloc, denied)?))
        }
        Condition::All(parts) => {
            let each = ground_each(alloc, &*within, parts.as_slice(), &*scope)?;
            Ok(GroundCondition::All(List::from_vec(each)))
        }
        Condition::Any(others) => {
            let each = ground_each(alloc, &*within, others.as_slice(), &*scope)?;
            Ok(GroundCondition::Any(List::from_vec(each)))
        }
        Condition::Imply(first, second) => {
            let denied = ground_condition(alloc, &*within, first.get(), &*scope)?;
            let refuted = GroundCondition::Not(Boxed::new(alloc, denied)?);
            let follows = ground_condition(alloc, &*within, second.get(), &*scope)?;
            Ok(GroundCondition::Any(both(alloc, refuted, follows)?))
        }
        Condition::Exists(variables, inner) => {
            let each = ground_ways(alloc, &*within, variables.as_slice(), inner.get(), &*scope)?;
            Ok(GroundCondition::Any(List::from_vec(each)))
        }
        Condition::Forall(variables, inner) => {
            let each = ground_ways(alloc, &*within, variables.as_slice(), inner.get(), &*scope)?;
            Ok(GroundCondition::All(List::from_vec(each)))
        }
    }
}

/// Each of the conditions.
#[cycle(grounding)]
fn ground_each(
    alloc: Global,
    within: &Binding<'_>,
    parts: &[Condition],
    scope: &Scope<'_>,
) -> Result<Vec<GroundCondition>, AllocError>
    requires { IsTyped within.now.table.now }
    ensures { IfOk result (λ v. v.items ≡ map (λ (c : Condition).
        ground_condition (world_of within.now) (numbering_of within.now) c (binding_of scope.now)) parts.now) }
{
    let mut each = Vec::with_capacity(alloc, parts.len())?;
    for part in parts {
        let here = ground_condition(alloc, &*within, part, &*scope)?;
        each.push(here)?;
    }
    Ok(each)
}

/// A condition under all ways to bind the variables. Where a variable has no objects there are none, and the
/// others are not bound, however many objects they have.
#[cycle(grounding)]
fn ground_ways(
    alloc: Global,
    within: &Binding<'_>,
    variables: &[Param],
    inner: &Condition,
    scope: &Scope<'_>,
) -> Result<Vec<GroundCondition>, AllocError>
    requires { IsTyped within.now.table.now }
    ensures { IfOk result (λ v. v.items ≡ map
        (ground_condition (world_of within.now) (numbering_of within.now) inner.now)
        (bindings (world_of within.now) variables.now (binding_of scope.now))) }
{
    let none = Vec::new(alloc);
    if count_bindings(within.table, variables) == 0 {
        return Ok(none);
    }
    ground_bound(alloc, &*within, none, &*variables, &*inner, &*scope)
}

/// A condition under all ways to bind the variables, behind others.
#[cycle(grounding)]
fn ground_bound<'x>(
    alloc: Global,
    within: &'x Binding<'x>,
    done: Vec<GroundCondition>,
    variables: &'x [Param],
    inner: &Condition,
    scope: &'x Scope<'x>,
) -> Result<Vec<GroundCondition>, AllocError>
    requires { IsTyped within.now.table.now }
    ensures { IfOk result (λ v. v.items ≡ done.items ++ map
        (ground_condition (world_of within.now) (numbering_of within.now) inner.now)
        (bindings (world_of within.now) variables.now (binding_of scope.now))) }
{
    let mut each = done;
    if variables.is_empty() {
        let here = ground_condition(alloc, &*within, &*inner, &*scope)?;
        each.push(here)?;
        return Ok(each);
    }
    let first = &variables[0];
    let table = within.table;
    let objects = objects_of(alloc, table, first)?;
    for object in objects.as_slice() {
        let inside = Scope::Bound(first.name.as_slice(), table.object_name(*object), &*scope);
        each = ground_bound(alloc, &*within, each, &variables[1..], &*inner, &inside)?;
    }
    Ok(each)
}
