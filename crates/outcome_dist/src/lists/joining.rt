//! Two choices at once.

ghost use Rattle.std.specs.Prelude.{◌≡◌, ◌++◌, IfOk, OnOk};
ghost use Rattle.ground_meaning.specs.choices.Joint.{joined};
ghost use Rattle.outcome_dist.specs.lists.Piles.{piled, settled};

use crate::lists::atoms::{less, make_rising, united};
use crate::lists::copying::push_copies;
use crate::lists::draft::Draft;
use crate::lists::part::Part;
use std::alloc::{AllocError, Global};

/// Puts copies of the guarded parts of both lists behind others.
fn push_both(
    alloc: Global,
    parts: &mut Vec<Part>,
    first: &[Part],
    second: &[Part],
) -> Result<(), AllocError>
    ensures { OnOk result (parts.new.items ≡ (parts.old.items ++ first.now) ++ second.now) }
{
    push_copies(alloc, parts, first)?;
    push_copies(alloc, parts, second)
}

/// Copies of the guarded parts of both lists.
fn both_parts(alloc: Global, first: &[Part], second: &[Part]) -> Result<Vec<Part>, AllocError>
    ensures { IfOk result (λ v. v.items ≡ first.now ++ second.now) }
{
    let mut parts = Vec::with_capacity(alloc, first.len() + second.len())?;
    match push_both(alloc, &mut parts, first, second) {
        Ok(()) => Ok(parts),
        Err(error) => {
            drop(parts);
            Err(error)
        }
    }
}

/// Both choices. A weight beyond 64 bits, or a cost beyond 128, has no room, and is want of memory.
pub(super) fn joined(alloc: Global, first: &Draft, second: &Draft) -> Result<Draft, AllocError>
    ensures { IfOk result (λ d. d ≡ joined first.now second.now) }
{
    let weight = first.weight.checked_mul(second.weight).ok_or(AllocError)?;
    let cost = first.cost.checked_add(second.cost).ok_or(AllocError)?;
    let adds = united(alloc, first.adds.as_slice(), second.adds.as_slice())?;
    let together = united(alloc, first.deletes.as_slice(), second.deletes.as_slice())?;
    let deletes = less(alloc, together, adds.as_slice())?;
    let guarded = both_parts(alloc, first.guarded.as_slice(), second.guarded.as_slice())?;
    Ok(Draft {
        weight,
        cost,
        adds,
        deletes,
        guarded,
    })
}

/// Puts a choice onto a pile, which is not settled.
pub(super) fn pile(mut first: Draft, mut second: Draft) -> Result<Draft, AllocError>
    ensures { IfOk result (λ d. d ≡ piled first second) }
{
    let weight = first.weight.checked_mul(second.weight).ok_or(AllocError)?;
    let cost = first.cost.checked_add(second.cost).ok_or(AllocError)?;
    first.adds.append(&mut second.adds)?;
    first.deletes.append(&mut second.deletes)?;
    first.guarded.append(&mut second.guarded)?;
    first.weight = weight;
    first.cost = cost;
    Ok(first)
}

/// A pile with its atoms in rising order, each once, and none both added and deleted.
pub(super) fn settled(alloc: Global, mut draft: Draft) -> Result<Draft, AllocError>
    ensures { IfOk result (λ d. d ≡ settled draft) }
{
    make_rising(&mut draft.adds);
    make_rising(&mut draft.deletes);
    let deletes = less(alloc, draft.deletes, draft.adds.as_slice())?;
    draft.deletes = deletes;
    Ok(draft)
}
