//! Declarations of objects by number.

ghost use Rattle.std.specs.Prelude.{◌≡◌, [], IfOk, IsTrue, map};
ghost use Rattle.std.specs.List.{AllZip, list_all};
ghost use Rattle.ppddl_model.specs.declared.tree.ObjectDecl.{ObjectDecl};
ghost use Rattle.ppddl_model.specs.Objects.{once};
ghost use Rattle.type_table.specs.Reading.{IsKindOf, has_kind};

use crate::names::Names;
use plain_list::List;
use ppddl_model::ObjectDecl;
use std::alloc::{AllocError, Global};

/// The number of each object's type. The objects get numbers in the order of their first
/// declarations.
pub(crate) fn kinds(
    alloc: Global,
    types: &Names,
    names: &mut Names,
    objects: &[ObjectDecl],
) -> Result<List<u32>, AllocError>
    requires none { names.old ≡ [] }
    requires known { IsTrue (list_all (has_kind types.now) objects.now) }
    ensures names { IfOk result
        (λ _. names.new ≡ map (λ (o : ObjectDecl). o.name) (once objects.now)) }
    ensures kinds { IfOk result (λ kinds. AllZip (IsKindOf types.now) kinds (once objects.now)) }
{
    let mut kinds = Vec::new(alloc);
    for object in objects {
        let Some(kind) = types.number_of(object.kind.as_slice()) else {
            unreachable!()
        };
        let number = names.add(object.name.as_slice())?;
        if number as usize == kinds.len() {
            kinds.push(kind)?;
        }
    }
    Ok(List::from_vec(kinds))
}
