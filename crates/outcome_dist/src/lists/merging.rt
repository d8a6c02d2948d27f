//! Lists in which equal choices are merged.

ghost use Rattle.std.specs.Prelude.{◌≡◌, ◌≤◌, ◌∷◌, [], length, map, IfOk, IfErr, IfSome, OnOk, slice_set, get_or, ◌<◌};
ghost use Rattle.std.specs.List.{position_or_len};
ghost use Rattle.plain_list.specs.weighted.Mean.{total};
ghost use Rattle.plain_list.specs.weighted.Merged.{with_item};
ghost use Rattle.ground_model.specs.declared.limits.TheConstants.{MOST_CHOICES};
ghost use Rattle.ground_meaning.specs.choices.Joint.{added, idle, joined, scaled, with_factor, weight_of};
ghost use Rattle.ground_meaning.specs.choices.Same.{same_choice};
ghost use Rattle.outcome_dist.specs.lists.Keys.{key_of};
ghost use Rattle.outcome_dist.specs.lists.Refusals.{IsTooMany};
ghost use Rattle.outcome_dist.specs.lists.Piles.{IsMerged, merging, settled, with_more};

use crate::lists::draft::Draft;
use crate::lists::joining;
use crate::lists::key::{Key, key_of};
use crate::lists::refusal::JointRefusal;
use crate::lists::same::place_of;
use ground_model::MOST_CHOICES;
use indexmap::IndexSet;
use std::alloc::{AllocError, Global};
use std::marker::Model;

/// From this length on equal choices are found by hash. In shorter lists they are compared one by one.
const HASHED_LENGTH: usize = 8;

/// A list of at most `MOST_CHOICES` choices in which equal ones are merged, each at the place of the
/// first. A long list has the keys of its choices. Contracts see the list.
#[derive(Drop)]
pub struct Merging {
    alloc: Global,
    keys: Option<IndexSet<Key>>,
    list: Vec<Draft>,
}

impl Model for Merging {
    ghost use Rattle.std.specs.Prelude.{◌≡◌, ◌≤◌, List, length, map, IfSome};
    ghost use Rattle.std.specs.Coded.{codes};
    ghost use Rattle.ground_model.specs.contracts.condition.GroundCondition as of_conditions;
    ghost use Rattle.ground_model.specs.declared.action.Choice.{Choice};
    ghost use Rattle.ground_model.specs.declared.limits.TheConstants.{MOST_CHOICES};
    ghost use Rattle.outcome_dist.specs.lists.Keys.{key_of};
    ghost use Rattle.outcome_dist.specs.lists.Piles.{IsMerged};

    ghost Value = { List Choice };

    ghost coded = { Prim.hlevel (codes, of_conditions.the_row.coded) };

    ghost view = { λ m. m.list.items };

    ghost invariant = { λ m. (IfSome m.keys (λ k. k.keys ≡ map key_of m.list.items))
        × (length m.list.items ≤ MOST_CHOICES) × IsMerged m.list.items };
}

/// The keys of a list whose choices differ.
fn new_keys(alloc: Global, list: &[Draft]) -> Result<IndexSet<Key>, AllocError>
    requires { IsMerged list.now }
    ensures { IfOk result (λ k. k.keys ≡ map key_of list.now) }
{
    let mut keys = IndexSet::new(alloc);
    for draft in list {
        let Ok(key) = key_of(alloc, draft) else {
            drop(keys);
            return Err(AllocError);
        };
        if let Err(failed) = keys.insert(key) {
            drop(failed);
            drop(keys);
            return Err(AllocError);
        }
    }
    Ok(keys)
}

/// The keys of a list whose choices differ. They are made where there are none.
fn keys_of(
    alloc: Global,
    keys: Option<IndexSet<Key>>,
    list: &[Draft],
) -> Result<IndexSet<Key>, AllocError>
    requires keyed { IfSome keys (λ k. k.keys ≡ map key_of list.now) }
    requires merged { IsMerged list.now }
    ensures { IfOk result (λ k. k.keys ≡ map key_of list.now) }
{
    match keys {
        Some(keys) => Ok(keys),
        None => new_keys(alloc, list),
    }
}

/// The place of the first choice in a list that is equal to another, or the length of the list, and
/// with it the keys of the list with the other choice merged into it, if it is long.
fn find(
    alloc: Global,
    keys: Option<IndexSet<Key>>,
    list: &[Draft],
    draft: &Draft,
) -> Result<(Option<IndexSet<Key>>, usize), AllocError>
    requires keyed { IfSome keys (λ k. k.keys ≡ map key_of list.now) }
    requires merged { IsMerged list.now }
    ensures keyed { IfOk result (λ r. IfSome r.0
        (λ k. k.keys ≡ map key_of (with_item same_choice added list.now draft.now))) }
    ensures place { IfOk result
        (λ r. r.1 ≡ position_or_len (λ x. same_choice x draft.now) list.now) }
{
    if list.len() < HASHED_LENGTH {
        drop(keys);
        return Ok((None, place_of(alloc, list, draft)?));
    }
    let mut keys = keys_of(alloc, keys, list)?;
    let Ok(key) = key_of(alloc, draft) else {
        drop(keys);
        return Err(AllocError);
    };
    match keys.insert_full(key) {
        Ok((place, _)) => Ok((Some(keys), place)),
        Err(failed) => {
            drop(failed);
            drop(keys);
            Err(AllocError)
        }
    }
}

impl Merging {
    /// No choices.
    pub fn new(alloc: Global) -> Self
        ensures { result ≡ [] }
    {
        Merging {
            alloc,
            keys: None,
            list: Vec::new(alloc),
        }
    }

    /// The choices, in order.
    pub fn into_list(self) -> Vec<Draft>
        ensures list { result.items ≡ self }
        ensures few { length self ≤ MOST_CHOICES }
    {
        self.list
    }

    /// The list with a choice merged into it, unless its weight is 0. A weight beyond 64 bits has no
    /// room, and is want of memory.
    pub fn put(self, draft: Draft) -> Result<Merging, JointRefusal>
        ensures put { IfOk result (λ m. m ≡ merging self (draft ∷ [])) }
        ensures refused { IfErr result (λ e. IsTooMany e (merging self (draft ∷ []))) }
    {
        if draft.weight == 0 {
            drop(draft);
            return Ok(self);
        }
        let Merging {
            alloc,
            keys,
            mut list,
        } = self;
        let Ok((keys, place)) = find(alloc, keys, list.as_slice(), &draft) else {
            drop(list);
            drop(draft);
            return Err(JointRefusal::Memory);
        };
        match put_at(&mut list, place, draft) {
            Ok(()) => Ok(Merging { alloc, keys, list }),
            Err(refusal) => {
                drop(keys);
                drop(list);
                Err(refusal)
            }
        }
    }
}

impl Merging {
    /// The list with a choice merged into it, its weight multiplied first. A weight beyond 64 bits has
    /// no room, and is want of memory.
    fn put_scaled(self, mut draft: Draft, factor: u64) -> Result<Merging, JointRefusal>
        ensures put { IfOk result (λ m. m ≡ merging self (scaled factor draft ∷ [])) }
        ensures refused { IfErr result
            (λ e. IsTooMany e (merging self (scaled factor draft ∷ []))) }
    {
        let Some(weight) = factor.checked_mul(draft.weight) else {
            drop(self);
            drop(draft);
            return Err(JointRefusal::Memory);
        };
        draft.weight = weight;
        self.put(draft)
    }

    /// The list with choices merged into it, their weights multiplied first.
    pub fn put_all(self, drafts: Vec<Draft>, factor: u64) -> Result<Merging, JointRefusal>
        ensures put { IfOk result (λ m. m ≡ merging self (map (scaled factor) drafts.items)) }
        ensures refused { IfErr result
            (λ e. IsTooMany e (merging self (map (scaled factor) drafts.items))) }
    {
        let mut merged = self;
        for draft in drafts {
            merged = merged.put_scaled(draft, factor)?;
        }
        Ok(merged)
    }

    /// The sum of all weights. A sum beyond 64 bits has no room, and is want of memory.
    pub fn total(&self) -> Result<u64, AllocError>
        ensures { IfOk result (λ sum. sum ≡ total weight_of self.now) }
    {
        let mut sum: u64 = 0;
        for draft in self.list.as_slice() {
            sum = sum.checked_add(draft.weight).ok_or(AllocError)?;
        }
        Ok(sum)
    }
}

/// Adds to the weight of a choice in a list.
fn add_weight(list: &mut Vec<Draft>, place: usize, weight: u64) -> Result<(), AllocError>
    requires { place < length list.old.items }
    ensures { OnOk result (list.new.items ≡ slice_set list.old.items place
        (with_more weight (get_or list.old.items place (idle 0)))) }
{
    let kept = &mut list[place];
    kept.weight = kept.weight.checked_add(weight).ok_or(AllocError)?;
    Ok(())
}

/// Merges a choice into a list at the place of the first one in it that is equal, or else at its end.
fn put_at(list: &mut Vec<Draft>, place: usize, draft: Draft) -> Result<(), JointRefusal>
    requires place { place ≡ position_or_len (λ x. same_choice x draft) list.old.items }
    requires few { length list.old.items ≤ MOST_CHOICES }
    ensures put { OnOk result (list.new.items ≡ with_item same_choice added list.old.items draft) }
    ensures few { OnOk result (length list.new.items ≤ MOST_CHOICES) }
    ensures refused { IfErr result
        (λ e. IsTooMany e (with_item same_choice added list.old.items draft)) }
{
    if place < list.len() {
        let weight = draft.weight;
        drop(draft);
        return Ok(add_weight(list, place, weight)?);
    }
    if list.len() >= MOST_CHOICES {
        drop(draft);
        return Err(JointRefusal::Choices);
    }
    list.push(draft)?;
    Ok(())
}

/// The list with both choices at once merged into it.
fn put_joined(
    alloc: Global,
    list: Merging,
    first: &Draft,
    second: &Draft,
) -> Result<Merging, JointRefusal>
    ensures put { IfOk result (λ m. m ≡ merging list (joined first.now second.now ∷ [])) }
    ensures refused { IfErr result
        (λ e. IsTooMany e (merging list (joined first.now second.now ∷ []))) }
{
    match joining::joined(alloc, first, second) {
        Ok(draft) => list.put(draft),
        Err(error) => {
            drop(list);
            Err(JointRefusal::from(error))
        }
    }
}

/// The list with a choice at once with each of others merged into it.
fn put_products(
    alloc: Global,
    list: Merging,
    first: &Draft,
    others: &[Draft],
) -> Result<Merging, JointRefusal>
    ensures put { IfOk result (λ m. m ≡ merging list (map (joined first.now) others.now)) }
    ensures refused { IfErr result
        (λ e. IsTooMany e (merging list (map (joined first.now) others.now))) }
{
    let mut merged = list;
    for other in others {
        merged = put_joined(alloc, merged, first, other)?;
    }
    Ok(merged)
}

/// One choice of each list at once, merged, the first list outer.
pub fn multiply(
    alloc: Global,
    first: &[Draft],
    others: &[Draft],
) -> Result<Vec<Draft>, JointRefusal>
    ensures list { IfOk result (λ v. v.items ≡ with_factor first.now others.now) }
    ensures few { IfOk result (λ v. length v.items ≤ MOST_CHOICES) }
    ensures refused { IfErr result (λ e. IsTooMany e (with_factor first.now others.now)) }
{
    let mut merged = Merging::new(alloc);
    for draft in first {
        merged = put_products(alloc, merged, draft, others)?;
    }
    Ok(merged.into_list())
}

/// The list with a choice merged into it, its atoms settled first.
fn put_settled(alloc: Global, list: Merging, draft: Draft) -> Result<Merging, JointRefusal>
    ensures put { IfOk result (λ m. m ≡ merging list (settled draft ∷ [])) }
    ensures refused { IfErr result (λ e. IsTooMany e (merging list (settled draft ∷ []))) }
{
    match joining::settled(alloc, draft) {
        Ok(draft) => list.put(draft),
        Err(error) => {
            drop(list);
            Err(JointRefusal::from(error))
        }
    }
}

/// The choices with their atoms settled, merged.
pub(super) fn merged_settled(alloc: Global, drafts: Vec<Draft>) -> Result<Vec<Draft>, JointRefusal>
    ensures list { IfOk result (λ v. v.items ≡ merging [] (map settled drafts.items)) }
    ensures few { IfOk result (λ v. length v.items ≤ MOST_CHOICES) }
    ensures refused { IfErr result (λ e. IsTooMany e (merging [] (map settled drafts.items))) }
{
    let mut merged = Merging::new(alloc);
    for draft in drafts {
        merged = put_settled(alloc, merged, draft)?;
    }
    Ok(merged.into_list())
}
