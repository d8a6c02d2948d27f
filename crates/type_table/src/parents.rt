//! The one parent of each type.

ghost use Rattle.std.specs.Prelude.{◌≡◌, ◌<◌, ◌^◌, [], ◌∷◌, ◌++◌, length, map};
ghost use Rattle.std.specs.Prelude.{IfOk, OnOk, IfSome, IsErrOf};
ghost use Rattle.type_table.specs.declared.refusal.TypeRefusal.TheVariants.{Cycle};
ghost use Rattle.type_table.specs.Forest.{IsOnly, IsOwnParent, IsSingle};
ghost use Rattle.type_table.specs.Reading.{items_of};
ghost use Rattle.type_table.specs.Rows.{AreWithin, HasRound};

use crate::refusal::TypeRefusal;
use plain_list::List;
use std::alloc::{AllocError, Global};

/// The parent of a type, itself where it has none; None where there are several. It is refused
/// where a type is its own parent, and where the first one of `object` is another type.
fn only_parent(row: &[u32], kind: u32) -> Result<Option<u32>, TypeRefusal>
    ensures only { IfOk result (λ found. IfSome found (IsOnly row.now kind)) }
    ensures cycle { IsErrOf result Cycle → IsOwnParent row.now kind }
{
    match row {
        [] => Ok(Some(kind)),
        [parent] => {
            if (*parent == kind) != (kind == 0) {
                return Err(TypeRefusal::Cycle);
            }
            Ok(Some(*parent))
        }
        [parent, ..] => {
            if kind == 0 && *parent != 0 {
                return Err(TypeRefusal::Cycle);
            }
            Ok(None)
        }
    }
}

/// Puts a number behind others.
fn push(numbers: &mut Vec<u32>, number: u32) -> Result<(), AllocError>
    ensures { OnOk result (numbers.new.items ≡ numbers.old.items ++ number ∷ []) }
{
    numbers.push(number)?;
    Ok(())
}

/// The parent of each type, itself where it has none; None where a type has several. It is refused
/// where a type is its own parent, and where `object` has another one.
pub(crate) fn only_parents(
    alloc: Global,
    rows: &[Vec<u32>],
) -> Result<Option<List<u32>>, TypeRefusal>
    requires many { length rows.now < 2 ^ 32 }
    requires within { AreWithin (map items_of rows.now) }
    ensures single { IfOk result (λ found. IfSome found (IsSingle (map items_of rows.now))) }
    ensures cycle { IsErrOf result Cycle → HasRound (map items_of rows.now) }
{
    let mut parents = Vec::new(alloc);
    for kind in 0..rows.len() {
        let Some(parent) = only_parent(rows[kind].as_slice(), kind as u32)? else {
            return Ok(None);
        };
        push(&mut parents, parent)?;
    }
    Ok(Some(List::from_vec(parents)))
}
