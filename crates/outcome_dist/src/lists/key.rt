//! Keys by which equal choices are found by hash.

ghost use Rattle.std.specs.Prelude.{◌≡◌, map, IfOk};
ghost use Rattle.outcome_dist.specs.lists.Keys.{key_of, part_key_of};

use crate::lists::draft::Draft;
use crate::lists::part::Part;
use crate::lists::words::push_words;
use ground_model::List;
use std::alloc::{AllocError, Global};

/// What of a guarded part decides whether it is equal to another.
#[derive(Drop, PartialEq, Eq, Hash)]
pub(super) struct PartKey {
    words: List<u32>,
    adds: List<u32>,
    deletes: List<u32>,
    cost: u128,
}

/// What of a choice decides whether it is equal to another: all but its weight.
#[derive(Drop, PartialEq, Eq, Hash)]
pub(super) struct Key {
    cost: u128,
    adds: List<u32>,
    deletes: List<u32>,
    parts: List<PartKey>,
}

/// The key of a guarded part.
fn part_key_of(alloc: Global, part: &Part) -> Result<PartKey, AllocError>
    ensures { IfOk result (λ k. k ≡ part_key_of part.now) }
{
    let mut words = Vec::new(alloc);
    push_words(&mut words, &part.condition)?;
    Ok(PartKey {
        words: List::from_vec(words),
        adds: List::from_vec(Vec::from_slice(alloc, part.adds.as_slice())?),
        deletes: List::from_vec(Vec::from_slice(alloc, part.deletes.as_slice())?),
        cost: part.cost,
    })
}

/// The keys of guarded parts.
fn part_keys_of(alloc: Global, parts: &[Part]) -> Result<Vec<PartKey>, AllocError>
    ensures { IfOk result (λ keys. keys.items ≡ map part_key_of parts.now) }
{
    let mut keys = Vec::with_capacity(alloc, parts.len())?;
    for part in parts {
        keys.push(part_key_of(alloc, part)?)?;
    }
    Ok(keys)
}

/// The key of a choice.
pub(super) fn key_of(alloc: Global, draft: &Draft) -> Result<Key, AllocError>
    ensures { IfOk result (λ k. k ≡ key_of draft.now) }
{
    Ok(Key {
        cost: draft.cost,
        adds: List::from_vec(Vec::from_slice(alloc, draft.adds.as_slice())?),
        deletes: List::from_vec(Vec::from_slice(alloc, draft.deletes.as_slice())?),
        parts: List::from_vec(part_keys_of(alloc, draft.guarded.as_slice())?),
    })
}
