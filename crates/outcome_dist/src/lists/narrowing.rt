//! Choices with their costs in 64 bits, in lowest terms.

ghost use Rattle.std.specs.Prelude.{◌≡◌, ◌<◌, ◌/◌, false, true, map, IfOk, IfErr};
ghost use Rattle.std.specs.List.{list_any};
ghost use Rattle.ground_model.specs.declared.limits.TheConstants.{MOST_CHOICE_COST};
ghost use Rattle.ground_meaning.specs.choices.Joint.{common_divisor, charged, reduced};
ghost use Rattle.ground_meaning.specs.choices.Limits.{is_dear};
ghost use Rattle.outcome_dist.specs.lists.Refusals.{IsTooDear};

use crate::lists::draft::Draft;
use crate::lists::part::Part;
use crate::lists::refusal::JointRefusal;
use exact_fraction::gcd;
use ground_model::{Choice, Guarded, List, MOST_CHOICE_COST, SharedList};
use std::alloc::{AllocError, Global};

/// The greatest common divisor of a denominator and of all weights.
pub fn common_divisor(den: u64, drafts: &[Draft]) -> u64
    ensures { result ≡ common_divisor den drafts.now }
{
    let mut divisor = den;
    for draft in drafts {
        divisor = gcd(divisor, draft.weight);
    }
    divisor
}

/// Whether a choice costs more than `MOST_CHOICE_COST` with the base cost and all its guarded parts.
fn is_dear(draft: &Draft, base: u64) -> bool
    ensures { result ≡ is_dear (charged base draft.now) }
{
    let most = MOST_CHOICE_COST as u128;
    if draft.cost > most {
        return true;
    }
    let mut whole = draft.cost + base as u128;
    for part in draft.guarded.as_slice() {
        if whole > most || part.cost > most {
            return true;
        }
        whole += part.cost;
    }
    whole > most
}

/// A cost in 64 bits. One beyond has no room.
fn narrowed_cost(cost: u128) -> Result<u64, AllocError>
    ensures { IfOk result (λ k. k ≡ cost) }
{
    if cost > u64::MAX as u128 {
        return Err(AllocError);
    }
    Ok(cost as u64)
}

/// A guarded part with its cost in 64 bits.
fn narrowed_part(part: Part) -> Result<Guarded, AllocError>
    ensures { IfOk result (λ x. x ≡ part) }
{
    let cost = narrowed_cost(part.cost)?;
    Ok(Guarded {
        condition: part.condition,
        adds: List::from_vec(part.adds),
        deletes: List::from_vec(part.deletes),
        cost,
    })
}

/// Guarded parts with their costs in 64 bits.
fn narrowed_parts(alloc: Global, parts: Vec<Part>) -> Result<Vec<Guarded>, AllocError>
    ensures { IfOk result (λ v. v.items ≡ parts.items) }
{
    let mut narrow = Vec::with_capacity(alloc, parts.len())?;
    for part in parts {
        narrow.push(narrowed_part(part)?)?;
    }
    Ok(narrow)
}

/// A choice with the base cost in it and its weight divided, with its costs in 64 bits.
fn narrowed_choice(
    alloc: Global,
    draft: Draft,
    base: u64,
    divisor: u64,
) -> Result<Choice, AllocError>
    requires { 0 < divisor }
    ensures { IfOk result (λ c. c ≡ reduced divisor (charged base draft)) }
{
    let whole = draft.cost.checked_add(base as u128).ok_or(AllocError)?;
    let cost = narrowed_cost(whole)?;
    let guarded = narrowed_parts(alloc, draft.guarded)?;
    Ok(Choice {
        weight: draft.weight / divisor,
        cost,
        adds: List::from_vec(draft.adds),
        deletes: List::from_vec(draft.deletes),
        guarded: List::from_vec(guarded),
    })
}

/// The choices with the base cost in them and their weights divided, unless one costs too much.
pub fn narrowed(
    alloc: Global,
    drafts: Vec<Draft>,
    base: u64,
    divisor: u64,
) -> Result<SharedList<Choice>, JointRefusal>
    requires { 0 < divisor }
    ensures list { IfOk result
        (λ l. l ≡ map (reduced divisor) (map (charged base) drafts.items)) }
    ensures cheap { IfOk result
        (λ _. list_any is_dear (map (charged base) drafts.items) ≡ false) }
    ensures refused { IfErr result (λ e. IsTooDear e (map (charged base) drafts.items)) }
{
    let mut narrow = Vec::with_capacity(alloc, drafts.len())?;
    for draft in drafts {
        if is_dear(&draft, base) {
            return Err(JointRefusal::OutcomeCost);
        }
        narrow.push(narrowed_choice(alloc, draft, base, divisor)?)?;
    }
    Ok(SharedList::from_vec(narrow)?)
}
