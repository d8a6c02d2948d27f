//! The spelling of names.

ghost use Rattle.std.specs.Prelude.{◌≡◌, ◌<◌, length, map, All, IfOk};
ghost use Rattle.type_table.specs.Types.{object_at};
ghost use Rattle.grounder.specs.instance_names.Names.{begun, ended};

use std::alloc::{AllocError, Global};
use type_table::TypeTable;

/// For how many bytes the beginning of a name has room: for all that it has.
fn room_for(table: &TypeTable, name: &[u8], objects: &[u32]) -> usize
    requires { All (λ o. o < length table.now.objects) objects.now }
{
    let mut room = name.len() + 1;
    for object in objects {
        room = room.saturating_add(1 + table.object_name(*object).len());
    }
    room
}

/// A name up to these objects: `(name object ..`.
pub(super) fn begun(
    alloc: Global,
    table: &TypeTable,
    name: &[u8],
    objects: &[u32],
) -> Result<Vec<u8>, AllocError>
    requires { All (λ o. o < length table.now.objects) objects.now }
    ensures { IfOk result
        (λ text. text.items ≡ begun name.now (map (object_at table.now) objects.now)) }
{
    let mut text = Vec::with_capacity(alloc, room_for(table, name, objects))?;
    text.push(b'(')?;
    text.extend_from_slice(name)?;
    for object in objects {
        text.push(b' ')?;
        text.extend_from_slice(table.object_name(*object))?;
    }
    Ok(text)
}

/// A name that has begun, with its last object: `(name object .. last)`.
pub(super) fn ended(alloc: Global, begun: &[u8], last: &[u8]) -> Result<Vec<u8>, AllocError>
    ensures { IfOk result (λ text. text.items ≡ ended begun.now last.now) }
{
    let room = begun.len().saturating_add(last.len()).saturating_add(2);
    let mut text = Vec::with_capacity(alloc, room)?;
    text.extend_from_slice(begun)?;
    text.push(b' ')?;
    text.extend_from_slice(last)?;
    text.push(b')')?;
    Ok(text)
}
