//! The objects of each type.

ghost use Rattle.std.specs.Prelude.{◌<◌, ◌^◌, length, IfOk};
ghost use Rattle.std.specs.List.{All};
ghost use Rattle.type_table.specs.Types.{type_names};
ghost use Rattle.type_table.specs.Hierarchy.{AreMembers};

use crate::hierarchy::Hierarchy;
use crate::rows::empty_rows;
use std::alloc::{AllocError, Global};

/// So many objects always have lists. A task with more of them is above its limit.
const FEW_OBJECTS: usize = 1000;

/// So many places the lists of more objects may take in all.
const MOST_PLACES: u64 = 4_194_304;

/// Whether objects of these types are many, and their lists would take more places than they may.
fn are_too_many(types: &Hierarchy, kinds: &[u32]) -> bool
    requires { All (λ k. k < length (type_names types.now)) kinds.now }
{
    if kinds.len() <= FEW_OBJECTS {
        return false;
    }
    let mut places: u64 = 0;
    for kind in kinds {
        places = places.saturating_add(types.count_up(*kind));
    }
    places > MOST_PLACES
}

/// The objects of each type, of which the types are given, in order. It is refused for want of memory
/// alone, also where there are many objects and the lists would be too long.
pub(crate) fn member_rows(
    alloc: Global,
    types: &Hierarchy,
    kinds: &[u32],
) -> Result<Vec<Vec<u32>>, AllocError>
    requires within { All (λ k. k < length (type_names types.now)) kinds.now }
    requires few { length kinds.now < 2 ^ 32 }
    ensures { IfOk result (λ rows. AreMembers types.now kinds.now rows.items) }
{
    if are_too_many(types, kinds) {
        return Err(AllocError);
    }
    let mut members = empty_rows(alloc, types.count())?;
    for object in 0..kinds.len() {
        types.add_member(&mut members, kinds[object], object as u32)?;
    }
    Ok(members)
}
