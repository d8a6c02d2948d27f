//! What stands above each type.

ghost use Rattle.std.specs.Prelude.{◌≡◌, ◌<◌, ◌^◌, false, length, map, nat_eq, IfOk, OnOk, IsErrOf};
ghost use Rattle.std.specs.List.{All, IsDistinct, list_any};
ghost use Rattle.type_table.specs.declared.refusal.TypeRefusal.TheVariants.{Cycle};
ghost use Rattle.type_table.specs.declared.link.Link.{Link};
ghost use Rattle.type_table.specs.Above.{rows_of, IsSound};
ghost use Rattle.type_table.specs.Reading.{items_of};
ghost use Rattle.type_table.specs.Rows.{EachRow, AreParents, AreWithin, IsReached, HasRound};
ghost use Rattle.type_table.specs.Rows.{row_at, in_row, is_round, AreEnds, AddsObject};

use crate::closure::{closure, has_round, in_row};
use crate::forest::Forest;
use crate::link::Link;
use crate::parents::only_parents;
use crate::refusal::TypeRefusal;
use crate::rows::{add_object, push_to};
use plain_list::List;
use std::alloc::{AllocError, Global};

/// What stands above each type by number.
#[derive(Drop)]
pub(crate) enum Above {
    /// Each type has one parent at most.
    Single(Forest),
    /// Where a type has several parents: the types that are reached from each type.
    Several(List<List<u32>>),
}

/// The types that are reached from each. It is refused where a declaration leads back to its own
/// type.
fn reached_rows(
    alloc: Global,
    parents: &[Vec<u32>],
    links: &[Link],
) -> Result<List<List<u32>>, TypeRefusal>
    requires many { length parents.now < 2 ^ 32 }
    requires within { AreWithin (map items_of parents.now) }
    requires linked { AreParents links.now (length parents.now) parents.now }
    requires ends { All (λ (link : Link). AreEnds (length parents.now) link) links.now }
    ensures rows { IfOk result
        (λ rows. EachRow (length parents.now) (IsReached (map items_of parents.now)) rows) }
    ensures acyclic { IfOk result (λ rows. list_any (is_round rows) links.now ≡ false) }
    ensures cycle { IsErrOf result Cycle → HasRound (map items_of parents.now) }
{
    let rows = closure(alloc, parents)?;
    if has_round(rows.as_slice(), links) {
        return Err(TypeRefusal::Cycle);
    }
    Ok(rows)
}

impl Above {
    /// What stands above each type that has these parents, by these declarations. It is refused
    /// where a type is above itself.
    pub(crate) fn make(
        alloc: Global,
        parents: &[Vec<u32>],
        links: &[Link],
    ) -> Result<Self, TypeRefusal>
        requires many { length parents.now < 2 ^ 32 }
        requires within { AreWithin (map items_of parents.now) }
        requires linked { AreParents links.now (length parents.now) parents.now }
        requires ends { All (λ (link : Link). AreEnds (length parents.now) link) links.now }
        ensures rows { IfOk result (λ above.
            EachRow (length parents.now) (IsReached (map items_of parents.now)) (rows_of above)) }
        ensures sound { IfOk result IsSound }
        ensures acyclic { IfOk result
            (λ above. list_any (is_round (rows_of above)) links.now ≡ false) }
        ensures cycle { IsErrOf result Cycle → HasRound (map items_of parents.now) }
    {
        let Some(single) = only_parents(alloc, parents)? else {
            return Ok(Above::Several(reached_rows(alloc, parents, links)?));
        };
        Ok(Above::Single(Forest::make(alloc, single)?))
    }

    /// Whether a type is another or is under it.
    pub(crate) fn is_under(&self, kind: u32, other: u32) -> bool
        requires sound { IsSound self.now }
        requires kind { kind < length (rows_of self.now) }
        requires other { other < length (rows_of self.now) }
        ensures { result ≡ in_row (row_at (rows_of self.now) kind) other }
    {
        match self {
            Above::Single(forest) => other == 0 || forest.leads_to(kind, other),
            Above::Several(rows) => in_row(rows.as_slice()[kind as usize].as_slice(), other),
        }
    }

    /// How many types an object of a type is of, `object` counted once or twice.
    pub(crate) fn count_up(&self, kind: u32) -> u64
        requires sound { IsSound self.now }
        requires kind { kind < length (rows_of self.now) }
    {
        match self {
            Above::Single(forest) => forest.depth(kind) as u64 + 2,
            Above::Several(rows) => rows.as_slice()[kind as usize].as_slice().len() as u64,
        }
    }

    /// Puts an object behind those of `object`, of a type and of each type above it.
    pub(crate) fn add_member(
        &self,
        members: &mut Vec<Vec<u32>>,
        kind: u32,
        object: u32,
    ) -> Result<(), AllocError>
        requires sound { IsSound self.now }
        requires kind { kind < length (rows_of self.now) }
        requires many { length members.old.items ≡ length (rows_of self.now) }
        requires distinct { IsDistinct nat_eq (row_at (rows_of self.now) kind) }
        requires within { All (λ k. k < length members.old.items)
            (row_at (rows_of self.now) kind) }
        ensures { OnOk result (AddsObject members.old.items
            (row_at (rows_of self.now) kind) object members.new.items) }
    {
        match self {
            Above::Single(forest) => {
                forest.add_up(members, kind, object)?;
                if !forest.leads_to(kind, 0) {
                    push_to(members, 0, object)?;
                }
                Ok(())
            }
            Above::Several(rows) => {
                add_object(members, rows.as_slice()[kind as usize].as_slice(), object)
            }
        }
    }
}
