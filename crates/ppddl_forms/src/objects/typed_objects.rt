//! Objects of a list that have their types.

ghost use Rattle.std.specs.Prelude.{◌≡◌, [], ◌∷◌, ◌++◌, IfOk, OnOk};
ghost use Rattle.std.specs.Option.{option_copied};
ghost use Rattle.ppddl_forms.specs.names.Declarations.{kind_named};

use crate::names::Names;
use ppddl_model::{List, ObjectDecl};
use std::alloc::{AllocError, Global};
use std::marker::Model;

/// The objects of a list that have their types, which are found by name. Contracts see the list of
/// them, in the order of the text, repeats kept.
#[derive(Drop)]
pub(super) struct TypedObjects {
    list: Vec<ObjectDecl>,
    found: Names,
}

impl Model for TypedObjects {
    ghost use Rattle.std.specs.Prelude.{◌≡◌, List};
    ghost use Rattle.ppddl_model.specs.declared.tree.ObjectDecl.{ObjectDecl};

    ghost Value = { List ObjectDecl };

    ghost view = { λ t. t.list.items };

    ghost invariant = { λ t. t.found.objects ≡ t.list.items };
}

impl TypedObjects {
    /// No objects. It is refused for want of memory alone.
    pub(super) fn make(alloc: Global) -> Result<TypedObjects, AllocError>
        ensures { IfOk result (λ typed. typed ≡ []) }
    {
        let found = Names::make(alloc)?;
        Ok(TypedObjects {
            list: Vec::new(alloc),
            found,
        })
    }

    /// The objects, in order.
    pub(super) fn into_list(self) -> List<ObjectDecl>
        ensures { result ≡ self }
    {
        let TypedObjects { list, found } = self;
        drop(found);
        List::from_vec(list)
    }

    /// The type of an object of the list.
    pub(super) fn kind_of(&self, object: &[u8]) -> Option<&[u8]>
        ensures { option_copied result ≡ kind_named self.now object.now }
    {
        self.found.kind_of(object)
    }

    /// Puts an object behind the others. It is refused for want of memory alone.
    pub(super) fn add(&mut self, object: ObjectDecl) -> Result<(), AllocError>
        ensures { OnOk result (self.new ≡ self.old ++ object ∷ []) }
    {
        let count = self.list.len();
        self.list.push(object)?;
        let Ok(_) = self.found.add_objects(&self.list[count..]) else {
            let _ = self.list.pop();
            return Err(AllocError);
        };
        Ok(())
    }
}
