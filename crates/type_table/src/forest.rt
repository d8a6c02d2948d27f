//! Hierarchies in which each type has one parent at most.

ghost use Rattle.std.specs.Prelude.{◌≡◌, ◌<◌, ◌^◌, [], length, nat_eq, not};
ghost use Rattle.std.specs.Prelude.{IfOk, OnOk, IsErrOf};
ghost use Rattle.std.specs.List.{list_any, IsDistinct};
ghost use Rattle.indexmap.specs.IndexSet.{insert_key};
ghost use Rattle.type_table.specs.declared.refusal.TypeRefusal.TheVariants.{Cycle};
ghost use Rattle.type_table.specs.Forest.{AreParentsWithin, HasLoop, IsPathTo, ArePlaced, IsRanked, IsOnTheWay};
ghost use Rattle.type_table.specs.Forest.{AreUnplaced, IsEnd, IsMorePlaced, IsForest};
ghost use Rattle.type_table.specs.Forest.{parent_at, depth_at, path, upward_path};
ghost use Rattle.type_table.specs.Rows.{AddsToRow};

use crate::refusal::TypeRefusal;
use crate::rows::push_to;
use indexmap::IndexSet;
use plain_list::List;
use std::alloc::{AllocError, Global};

/// The depth of a type that has no place yet; every other type stands less deep.
pub(crate) const UNPLACED: u32 = u32::MAX;

/// How many types stand above a type, and one of them, from which a walk up goes on.
#[derive(Clone, Copy, Drop)]
pub(crate) struct Rank {
    pub depth: u32,
    pub jump: u32,
}

/// The parent and the rank of each type by number. A type without a parent is given as its own.
#[derive(Drop)]
pub(crate) struct Forest {
    pub parents: List<u32>,
    pub ranks: List<Rank>,
}

/// As many types without a place.
fn unplaced(alloc: Global, count: usize) -> Result<Vec<Rank>, AllocError>
    ensures { IfOk result (λ ranks. AreUnplaced count ranks.items) }
{
    let mut ranks = Vec::new(alloc);
    for _kind in 0..count {
        ranks.push(Rank {
            depth: UNPLACED,
            jump: 0,
        })?;
    }
    Ok(ranks)
}

/// Whether a number was put behind the others, where it is not among them.
fn add_new(path: &mut IndexSet<u32>, kind: u32) -> Result<bool, AllocError>
    ensures added { IfOk result (λ new. new ≡ not (list_any (nat_eq kind) path.old.keys)) }
    ensures keys { OnOk result (path.new.keys ≡ insert_key nat_eq path.old.keys kind) }
    ensures distinct { OnOk result (IsDistinct nat_eq path.new.keys) }
{
    let Ok(new) = path.insert(kind) else {
        return Err(AllocError);
    };
    Ok(new)
}

/// Walks up from a type to one that has a place or no parent, and keeps the types on the way. It is
/// refused as a cycle where the walk comes back to one of them.
fn walk_up(
    parents: &[u32],
    ranks: &[Rank],
    path: &mut IndexSet<u32>,
    kind: u32,
) -> Result<u32, TypeRefusal>
    requires many { length ranks.now ≡ length parents.now }
    requires within { AreParentsWithin parents.now }
    requires kind { kind < length parents.now }
    requires begins { path.old.keys ≡ [] }
    ensures path { IfOk result (λ top. IsPathTo parents.now kind path.new.keys top) }
    ensures end { IfOk result (λ top. IsEnd parents.now ranks.now top) }
    ensures cycle { IsErrOf result Cycle → HasLoop parents.now }
{
    let mut top = kind;
    while ranks[top as usize].depth >= UNPLACED && parents[top as usize] != top {
        if !add_new(path, top)? {
            return Err(TypeRefusal::Cycle);
        }
        top = parents[top as usize];
    }
    Ok(top)
}

/// The type to which one jumps from a type with this parent: the parent, or where two jumps from
/// there are equally long, the end of both. So a walk up takes steps in the logarithm of the depth
/// (Myers 1983).
fn jump_from(parents: &[u32], ranks: &[Rank], parent: u32) -> u32
    requires placed { ArePlaced parents.now ranks.now }
    requires ranked { IsRanked ranks.now parent }
    ensures { IsOnTheWay parents.now ranks.now parent result }
{
    let above = ranks[parent as usize];
    let far = ranks[above.jump as usize];
    let farther = ranks[far.jump as usize];
    if above.depth - far.depth == far.depth - farther.depth {
        far.jump
    } else {
        parent
    }
}

/// Gives a type its place under its parent, which has one. It is refused where depths do not fit
/// their numbers.
fn settle(parents: &[u32], ranks: &mut Vec<Rank>, kind: u32) -> Result<(), AllocError>
    requires many { length ranks.old.items ≡ length parents.now }
    requires kind { kind < length parents.now }
    requires placed { ArePlaced parents.now ranks.old.items }
    requires parent { IsRanked ranks.old.items (parent_at parents.now kind) }
    requires other { parent_at parents.now kind ≡ kind → ⊥ }
    ensures placed { OnOk result (ArePlaced parents.now ranks.new.items) }
    ensures more { OnOk result (IsMorePlaced ranks.old.items kind ranks.new.items) }
{
    let parent = parents[kind as usize];
    let above = ranks[parent as usize].depth;
    if above >= UNPLACED - 1 {
        return Err(AllocError);
    }
    let jump = jump_from(parents, ranks.as_slice(), parent);
    ranks[kind as usize] = Rank {
        depth: above + 1,
        jump,
    };
    Ok(())
}

/// Gives a type without a parent its place, where it has none.
fn settle_end(parents: &[u32], ranks: &mut Vec<Rank>, kind: u32)
    requires many { length ranks.old.items ≡ length parents.now }
    requires kind { kind < length parents.now }
    requires placed { ArePlaced parents.now ranks.old.items }
    requires end { IsEnd parents.now ranks.old.items kind }
    ensures placed { ArePlaced parents.now ranks.new.items }
    ensures more { IsMorePlaced ranks.old.items kind ranks.new.items }
{
    if ranks[kind as usize].depth >= UNPLACED {
        ranks[kind as usize] = Rank {
            depth: 0,
            jump: kind,
        };
    }
}

/// Gives a type and those above it their places. It is refused where a type is above itself.
fn place(
    alloc: Global,
    parents: &[u32],
    ranks: &mut Vec<Rank>,
    kind: u32,
) -> Result<(), TypeRefusal>
    requires many { length ranks.old.items ≡ length parents.now }
    requires within { AreParentsWithin parents.now }
    requires kind { kind < length parents.now }
    requires placed { ArePlaced parents.now ranks.old.items }
    ensures placed { OnOk result (ArePlaced parents.now ranks.new.items) }
    ensures more { OnOk result (IsMorePlaced ranks.old.items kind ranks.new.items) }
    ensures cycle { IsErrOf result Cycle → HasLoop parents.now }
{
    let mut path = IndexSet::new(alloc);
    let top = walk_up(parents, ranks.as_slice(), &mut path, kind)?;
    settle_end(parents, ranks, top);
    while let Some(below) = path.pop() {
        settle(parents, ranks, below)?;
    }
    Ok(())
}

/// The ranks of all types. It is refused where a type is above itself.
fn rank_all(alloc: Global, parents: &[u32]) -> Result<Vec<Rank>, TypeRefusal>
    requires many { length parents.now < 2 ^ 32 }
    requires within { AreParentsWithin parents.now }
    ensures forest { IfOk result (λ ranks. IsForest parents.now ranks.items) }
    ensures cycle { IsErrOf result Cycle → HasLoop parents.now }
{
    let mut ranks = unplaced(alloc, parents.len())?;
    for kind in 0..parents.len() {
        place(alloc, parents, &mut ranks, kind as u32)?;
    }
    Ok(ranks)
}

impl Forest {
    /// The types with these parents. It is refused where a type is above itself.
    pub(crate) fn make(alloc: Global, parents: List<u32>) -> Result<Self, TypeRefusal>
        requires many { length parents < 2 ^ 32 }
        requires within { AreParentsWithin parents }
        ensures parents { IfOk result (λ forest. forest.parents ≡ parents) }
        ensures forest { IfOk result (λ forest. IsForest parents forest.ranks) }
        ensures cycle { IsErrOf result Cycle → HasLoop parents }
    {
        let ranks = rank_all(alloc, parents.as_slice())?;
        Ok(Forest {
            parents,
            ranks: List::from_vec(ranks),
        })
    }

    /// Whether a type is another or under it, `object` apart.
    pub(crate) fn leads_to(&self, kind: u32, other: u32) -> bool
        requires forest { IsForest self.now.parents self.now.ranks }
        requires kind { kind < length self.now.parents }
        requires other { other < length self.now.parents }
        ensures { result ≡ list_any (λ x. nat_eq x other)
            (upward_path self.now.parents self.now.ranks kind) }
    {
        let parents = self.parents.as_slice();
        let ranks = self.ranks.as_slice();
        let depth = ranks[other as usize].depth;
        let mut at = kind;
        while ranks[at as usize].depth > depth {
            let jump = ranks[at as usize].jump;
            at = if ranks[jump as usize].depth >= depth {
                jump
            } else {
                parents[at as usize]
            };
        }
        at == other
    }

    /// How many types stand above a type.
    pub(crate) fn depth(&self, kind: u32) -> u32
        requires forest { IsForest self.now.parents self.now.ranks }
        requires kind { kind < length self.now.parents }
        ensures { result ≡ depth_at self.now.ranks kind }
    {
        self.ranks.as_slice()[kind as usize].depth
    }

    /// Puts an object behind those of a type and of each type above it.
    pub(crate) fn add_up(
        &self,
        members: &mut Vec<Vec<u32>>,
        kind: u32,
        object: u32,
    ) -> Result<(), AllocError>
        requires forest { IsForest self.now.parents self.now.ranks }
        requires kind { kind < length self.now.parents }
        requires many { length members.old.items ≡ length self.now.parents }
        ensures { OnOk result (AddsToRow members.old.items
            (upward_path self.now.parents self.now.ranks kind) object members.new.items) }
    {
        let parents = self.parents.as_slice();
        let ranks = self.ranks.as_slice();
        let mut at = kind;
        push_to(members, at, object)?;
        while ranks[at as usize].depth > 0 {
            at = parents[at as usize];
            push_to(members, at, object)?;
        }
        Ok(())
    }
}
