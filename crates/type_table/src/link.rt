//! Declarations of types by number.

ghost use Rattle.std.specs.Prelude.{◌≡◌, [], ◌∷◌, IfOk, codes};
ghost use Rattle.std.specs.List.{AllZip};
ghost use Rattle.type_table.specs.Types.{type_names};
ghost use Rattle.type_table.specs.Reading.{IsLinkOf, with_type};

use crate::names::Names;
use plain_list::List;
use ppddl_model::TypeDecl;
use std::alloc::{AllocError, Global};

/// A declaration by number: the type and its parent.
#[derive(Clone, Copy, Drop)]
pub(crate) struct Link {
    pub child: u32,
    pub parent: u32,
}

impl Link {
    /// The declaration by number, whose names are put in.
    pub(crate) fn new(names: &mut Names, declared: &TypeDecl) -> Result<Self, AllocError>
        ensures names { IfOk result (λ _. names.new ≡ with_type names.old declared.now) }
        ensures link { IfOk result (λ link. IsLinkOf names.new link declared.now) }
    {
        let child = names.add(declared.name.as_slice())?;
        let parent = names.add(declared.parent.as_slice())?;
        Ok(Link { child, parent })
    }
}

/// The declarations by number, where `object` alone has a number yet.
pub(crate) fn links(
    alloc: Global,
    names: &mut Names,
    types: &[TypeDecl],
) -> Result<List<Link>, AllocError>
    requires { names.old ≡ codes "object" ∷ [] }
    ensures names { IfOk result (λ _. names.new ≡ type_names types.now) }
    ensures links { IfOk result (λ links. AllZip (IsLinkOf names.new) links types.now) }
{
    let mut links = Vec::new(alloc);
    for declared in types {
        links.push(Link::new(names, declared)?)?;
    }
    Ok(List::from_vec(links))
}
