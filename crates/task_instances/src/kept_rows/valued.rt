//! Whether function terms have values.

ghost use Rattle.std.specs.Prelude.{◌≡◌, IfOk};
ghost use Rattle.std.specs.List.{list_all};
ghost use Rattle.ppddl_model.specs.Steps.{world};
ghost use Rattle.ground_terms.specs.terms.Scopes.{binding_of};
ghost use Rattle.task_instances.specs.quantified_atoms.Needed.{params_of};
ghost use Rattle.task_instances.specs.kept_rows.Terms.{has_values, is_valued};
ghost use Rattle.task_instances.specs.kept_rows.Terms.{is_valued_first, is_valued_under};

use crate::facts::TaskFacts;
use crate::quantified_atoms::{QuantifiedAtom, is_settled};
use ground_terms::{Scope, objects_of};
use ppddl_model::{Atom, Param};
use std::alloc::{AllocError, Global};

/// Whether a function term has a value however the variables are bound on top of the scope.
fn has_values<'x>(
    alloc: Global,
    facts: &'x TaskFacts<'_>,
    term: &Atom,
    variables: &'x [&'x Param],
    scope: &'x Scope<'x>,
) -> Result<bool, AllocError>
    ensures { IfOk result (λ v. v ≡ has_values (world facts.now) term.now
        (params_of variables.now) (binding_of scope.now)) }
{
    if variables.is_empty() {
        return facts.has_value(alloc, term, scope);
    }
    let first = variables[0];
    let objects = objects_of(alloc, (&*facts).table(), first)?;
    for object in objects.as_slice() {
        let inside = Scope::Bound(
            first.name.as_slice(),
            (&*facts).table().object_name(*object),
            &*scope,
        );
        if !has_values(alloc, &*facts, &*term, &variables[1..], &inside)? {
            return Ok(false);
        }
    }
    Ok(true)
}

/// Whether a quantified term has all its values.
fn is_valued(
    alloc: Global,
    facts: &TaskFacts<'_>,
    term: &QuantifiedAtom<'_>,
    scope: &Scope<'_>,
) -> Result<bool, AllocError>
    ensures { IfOk result (λ v. v ≡ is_valued (world facts.now) term.now (binding_of scope.now)) }
{
    has_values(alloc, facts, term.atom, term.variables.as_slice(), scope)
}

/// Whether a term that names no parameter of an action has all its values. Any other passes.
fn is_valued_first(
    alloc: Global,
    facts: &TaskFacts<'_>,
    term: &QuantifiedAtom<'_>,
) -> Result<bool, AllocError>
    ensures { IfOk result (λ v. v ≡ is_valued_first (world facts.now) term.now) }
{
    if is_settled(term) {
        return is_valued(alloc, facts, term, &Scope::Empty);
    }
    Ok(true)
}

/// Whether a term that names a parameter of an action has all its values. Any other passes.
pub(super) fn is_valued_under(
    alloc: Global,
    facts: &TaskFacts<'_>,
    term: &QuantifiedAtom<'_>,
    scope: &Scope<'_>,
) -> Result<bool, AllocError>
    ensures { IfOk result
        (λ v. v ≡ is_valued_under (world facts.now) (binding_of scope.now) term.now) }
{
    if is_settled(term) {
        return Ok(true);
    }
    is_valued(alloc, facts, term, scope)
}

/// Whether each of the terms that name no parameter of an action has all its values.
pub(super) fn are_valued_first(
    alloc: Global,
    facts: &TaskFacts<'_>,
    terms: &[QuantifiedAtom<'_>],
) -> Result<bool, AllocError>
    ensures { IfOk result (λ v. v ≡ list_all (is_valued_first (world facts.now)) terms.now) }
{
    for term in terms {
        if !is_valued_first(alloc, facts, term)? {
            return Ok(false);
        }
    }
    Ok(true)
}
