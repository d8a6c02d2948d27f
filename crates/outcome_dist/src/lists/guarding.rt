//! Choices under conditions.

ghost use Rattle.std.specs.Prelude.{◌≡◌, map, IfOk};
ghost use Rattle.ground_meaning.specs.choices.Joint.{own_part, under, guard};

use crate::lists::copying::copied;
use crate::lists::draft::Draft;
use crate::lists::part::Part;
use ground_model::{GroundCondition, List};
use std::alloc::{AllocError, Global};

/// A guarded part under one more condition, which is tested first.
fn under(alloc: Global, condition: &GroundCondition, part: &Part) -> Result<Part, AllocError>
    ensures { IfOk result (λ p. p ≡ under condition.now part.now) }
{
    let mut both = Vec::with_capacity(alloc, 2)?;
    both.push(copied(alloc, condition)?)?;
    both.push(copied(alloc, &part.condition)?)?;
    Ok(Part {
        condition: GroundCondition::All(List::from_vec(both)),
        adds: Vec::from_slice(alloc, part.adds.as_slice())?,
        deletes: Vec::from_slice(alloc, part.deletes.as_slice())?,
        cost: part.cost,
    })
}

/// What a choice does without a condition as a part of its own, or none where it does nothing.
fn own_part(
    alloc: Global,
    condition: &GroundCondition,
    draft: &Draft,
) -> Result<Vec<Part>, AllocError>
    ensures { IfOk result (λ v. v.items ≡ own_part condition.now draft.now) }
{
    let mut parts = Vec::new(alloc);
    if draft.adds.is_empty() && draft.deletes.is_empty() && draft.cost == 0 {
        return Ok(parts);
    }
    parts.push(Part {
        adds: Vec::from_slice(alloc, draft.adds.as_slice())?,
        deletes: Vec::from_slice(alloc, draft.deletes.as_slice())?,
        cost: draft.cost,
        condition: copied(alloc, condition)?,
    })?;
    Ok(parts)
}

/// A choice where a condition holds.
fn guard(alloc: Global, condition: &GroundCondition, draft: &Draft) -> Result<Draft, AllocError>
    ensures { IfOk result (λ d. d ≡ guard condition.now draft.now) }
{
    let mut guarded = own_part(alloc, condition, draft)?;
    for part in draft.guarded.as_slice() {
        guarded.push(under(alloc, condition, part)?)?;
    }
    Ok(Draft {
        weight: draft.weight,
        cost: 0,
        adds: Vec::new(alloc),
        deletes: Vec::new(alloc),
        guarded,
    })
}

/// Each of the choices where a condition holds.
pub fn guard_all(
    alloc: Global,
    condition: &GroundCondition,
    drafts: &[Draft],
) -> Result<Vec<Draft>, AllocError>
    ensures { IfOk result (λ v. v.items ≡ map (guard condition.now) drafts.now) }
{
    let mut guarded = Vec::with_capacity(alloc, drafts.len())?;
    for draft in drafts {
        guarded.push(guard(alloc, condition, draft)?)?;
    }
    Ok(guarded)
}
