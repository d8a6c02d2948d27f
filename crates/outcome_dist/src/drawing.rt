//! The merged choices of an effect, form by form.

ghost use Rattle.std.specs.Prelude.{◌≡◌, ◌≤◌, ◌∷◌, [], IfOk, IfErr};
ghost use Rattle.ppddl_model.specs.declared.tree.Effect.{Effect};
ghost use Rattle.ppddl_model.specs.Objects.{bindings};
ghost use Rattle.ground_model.specs.declared.limits.TheConstants.{MOST_CHOICES};
ghost use Rattle.ground_meaning.specs.choices.Joint.{choices, idle};
ghost use Rattle.ground_meaning.specs.choices.Limits.{widest};
ghost use Rattle.ground_terms.specs.terms.Scopes.{binding_of};
ghost use Rattle.ground_terms.specs.sizes.Typed.{IsTyped};
ghost use Rattle.outcome_dist.specs.conditions.Bindings.{world_of, numbering_of};
ghost use Rattle.outcome_dist.specs.Draws.{IsWide, drawn, width, branches_drawn, branches_width};

use crate::conditions::{Binding, atom_numbers, ground_condition};
use crate::denominators::{branch_factor, inner_denominator, own_denominator, times};
use crate::lists::{Draft, JointRefusal, Merging, Product, guard_all};
use ground_terms::{Scope, count_bindings, objects_of};
use ppddl_model::{Branch, Effect, Param};
use std::alloc::{AllocError, Global};

/// A list of one choice.
fn one(alloc: Global, draft: Draft) -> Result<Vec<Draft>, AllocError>
    ensures { IfOk result (λ v. v.items ≡ draft ∷ []) }
{
    let mut list = Vec::new(alloc);
    list.push(draft)?;
    Ok(list)
}

/// The choices of an effect, merged, over its denominator.
#[cycle(drawing)]
pub(crate) fn draw(
    alloc: Global,
    within: &Binding<'_>,
    effect: &Effect,
    scope: &Scope<'_>,
) -> Result<Vec<Draft>, JointRefusal>
    requires { IsTyped within.now.table.now }
    ensures found { IfOk result (λ v. v.items
        ≡ choices (world_of within.now) (numbering_of within.now) effect.now (binding_of scope.now)) }
    ensures narrow { IfOk result (λ _.
        widest (world_of within.now) (numbering_of within.now) effect.now (binding_of scope.now) ≤ MOST_CHOICES) }
    ensures refused { IfErr result (λ e. IsWide e
        (widest (world_of within.now) (numbering_of within.now) effect.now (binding_of scope.now))) }
{
    match effect {
        Effect::Add(atom) => {
            let adds = atom_numbers(alloc, &*within, atom, &*scope)?;
            Ok(one(alloc, Draft::literal(alloc, adds, Vec::new(alloc)))?)
        }
        Effect::Delete(atom) => {
            let deletes = atom_numbers(alloc, &*within, atom, &*scope)?;
            Ok(one(alloc, Draft::literal(alloc, Vec::new(alloc), deletes))?)
        }
        Effect::Cost(amount) => Ok(one(alloc, Draft::charge(alloc, *amount))?),
        Effect::CostOf(term) => {
            let cost = within.values.cost_of(alloc, &*scope, term)?;
            Ok(one(alloc, Draft::charge(alloc, cost))?)
        }
        Effect::Both(parts) => {
            let product = draw_each(alloc, &*within, parts.as_slice(), &*scope)?;
            product.into_list()
        }
        Effect::Forall(variables, inner) => {
            let product = draw_ways(
                alloc,
                &*within,
                Product::new(alloc)?,
                variables.as_slice(),
                inner.get(),
                &*scope,
            )?;
            product.into_list()
        }
        Effect::When(condition, inner) => {
            let drafts = draw(alloc, &*within, inner.get(), &*scope)?;
            let test = ground_condition(alloc, &*within, condition, &*scope)?;
            Ok(guard_all(alloc, &test, drafts.as_slice())?)
        }
        Effect::Chance(branches) => draw_branches(alloc, &*within, branches.as_slice(), &*scope),
    }
}

/// The product of the choices of the effects.
#[cycle(drawing)]
fn draw_each(
    alloc: Global,
    within: &Binding<'_>,
    parts: &[Effect],
    scope: &Scope<'_>,
) -> Result<Product, JointRefusal>
    requires { IsTyped within.now.table.now }
    ensures found { IfOk result (λ p. p ≡ drawn (idle 1 ∷ []) (λ (e : Effect).
        choices (world_of within.now) (numbering_of within.now) e (binding_of scope.now)) parts.now) }
    ensures narrow { IfOk result (λ _. width (idle 1 ∷ []) (λ (e : Effect).
        choices (world_of within.now) (numbering_of within.now) e (binding_of scope.now)) (λ (e : Effect).
        widest (world_of within.now) (numbering_of within.now) e (binding_of scope.now)) parts.now ≤ MOST_CHOICES) }
    ensures refused { IfErr result (λ r. IsWide r (width (idle 1 ∷ []) (λ (e : Effect).
        choices (world_of within.now) (numbering_of within.now) e (binding_of scope.now)) (λ (e : Effect).
        widest (world_of within.now) (numbering_of within.now) e (binding_of scope.now)) parts.now)) }
{
    let start = Product::new(alloc)?;
    let mut product = start;
    for part in parts {
        let factor = draw(alloc, &*within, part, &*scope)?;
        product = product.put(factor)?;
    }
    Ok(product)
}

/// The product of the choices under all ways to bind the variables, behind what came before. Where a variable
/// has no objects there are none, and the others are not bound, however many objects they have.
#[cycle(drawing)]
fn draw_ways(
    alloc: Global,
    within: &Binding<'_>,
    before: Product,
    variables: &[Param],
    inner: &Effect,
    scope: &Scope<'_>,
) -> Result<Product, JointRefusal>
    requires { IsTyped within.now.table.now }
    ensures found { IfOk result (λ p. p
        ≡ drawn before (choices (world_of within.now) (numbering_of within.now) inner.now)
        (bindings (world_of within.now) variables.now (binding_of scope.now))) }
    ensures narrow { IfOk result (λ _.
        width before (choices (world_of within.now) (numbering_of within.now) inner.now)
        (widest (world_of within.now) (numbering_of within.now) inner.now)
        (bindings (world_of within.now) variables.now (binding_of scope.now)) ≤ MOST_CHOICES) }
    ensures refused { IfErr result (λ r. IsWide r
        (width before (choices (world_of within.now) (numbering_of within.now) inner.now)
        (widest (world_of within.now) (numbering_of within.now) inner.now)
        (bindings (world_of within.now) variables.now (binding_of scope.now)))) }
{
    if count_bindings(within.table, variables) == 0 {
        return Ok(before);
    }
    draw_bound(alloc, &*within, before, &*variables, &*inner, &*scope)
}

/// The product of the choices under all ways to bind the variables, behind what came before.
#[cycle(drawing)]
fn draw_bound<'x>(
    alloc: Global,
    within: &'x Binding<'x>,
    before: Product,
    variables: &'x [Param],
    inner: &Effect,
    scope: &'x Scope<'x>,
) -> Result<Product, JointRefusal>
    requires { IsTyped within.now.table.now }
    ensures found { IfOk result (λ p. p
        ≡ drawn before (choices (world_of within.now) (numbering_of within.now) inner.now)
        (bindings (world_of within.now) variables.now (binding_of scope.now))) }
    ensures narrow { IfOk result (λ _.
        width before (choices (world_of within.now) (numbering_of within.now) inner.now)
        (widest (world_of within.now) (numbering_of within.now) inner.now)
        (bindings (world_of within.now) variables.now (binding_of scope.now)) ≤ MOST_CHOICES) }
    ensures refused { IfErr result (λ r. IsWide r
        (width before (choices (world_of within.now) (numbering_of within.now) inner.now)
        (widest (world_of within.now) (numbering_of within.now) inner.now)
        (bindings (world_of within.now) variables.now (binding_of scope.now)))) }
{
    let mut product = before;
    if variables.is_empty() {
        let factor = draw(alloc, &*within, &*inner, &*scope)?;
        return product.put(factor);
    }
    let first = &variables[0];
    let table = within.table;
    let objects = objects_of(alloc, table, first)?;
    for object in objects.as_slice() {
        let inside = Scope::Bound(first.name.as_slice(), table.object_name(*object), &*scope);
        product = draw_bound(alloc, &*within, product, &variables[1..], &*inner, &inside)?;
    }
    Ok(product)
}

/// The choices of the branches, and nothing with the weight that is left.
#[cycle(drawing)]
fn draw_branches(
    alloc: Global,
    within: &Binding<'_>,
    branches: &[Branch],
    scope: &Scope<'_>,
) -> Result<Vec<Draft>, JointRefusal>
    requires { IsTyped within.now.table.now }
    ensures found { IfOk result (λ v. v.items
        ≡ branches_drawn (world_of within.now) (numbering_of within.now) branches.now (binding_of scope.now)) }
    ensures narrow { IfOk result (λ _.
        branches_width (world_of within.now) (numbering_of within.now) branches.now (binding_of scope.now) ≤ MOST_CHOICES) }
    ensures refused { IfErr result (λ r. IsWide r
        (branches_width (world_of within.now) (numbering_of within.now) branches.now (binding_of scope.now))) }
{
    let own = own_denominator(branches)?;
    let inner = inner_denominator(within.table, branches)?;
    let den = times(own, inner)?;
    let mut merged = Merging::new(alloc);
    for branch in branches {
        let Ok(factor) = branch_factor(own, inner, within.table, branch) else {
            drop(merged);
            return Err(JointRefusal::Memory);
        };
        match draw(alloc, &*within, &branch.effect, &*scope) {
            Ok(drafts) => merged = merged.put_all(drafts, factor)?,
            Err(refusal) => {
                drop(merged);
                return Err(refusal);
            }
        }
    }
    let Ok(used) = merged.total() else {
        drop(merged);
        return Err(JointRefusal::Memory);
    };
    let whole = merged.put(Draft::idle(alloc, den.saturating_sub(used)))?;
    Ok(whole.into_list())
}
