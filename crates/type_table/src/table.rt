//! The table of types and objects.

ghost use Rattle.std.specs.Prelude.{◌≡◌, ◌<◌, Some, false, true, is_some, length, map};
ghost use Rattle.std.specs.Prelude.{All, IsTrue, IfOk, OnOk, IsErrOf};
ghost use Rattle.std.specs.List.{list_all};
ghost use Rattle.ppddl_model.specs.Objects.{is_under};
ghost use Rattle.ppddl_model.specs.WellFormed.{is_type};
ghost use Rattle.type_table.specs.declared.refusal.TypeRefusal.TheVariants.{Cycle};
ghost use Rattle.type_table.specs.Numbered.{number_of};
ghost use Rattle.type_table.specs.Types.{table_world, type_names, object_names};
ghost use Rattle.type_table.specs.Types.{type_at, object_at, kind_at};
ghost use Rattle.type_table.specs.Types.{objects_under, is_known, has_cycle};

use crate::hierarchy::Hierarchy;
use crate::members::member_rows;
use crate::names::Names;
use crate::objects::kinds;
use crate::refusal::TypeRefusal;
use plain_list::List;
use ppddl_model::{ObjectDecl, TypeDecl};
use std::alloc::Global;
use std::marker::Model;

/// The types and the objects of declarations by number. Contracts see the declarations, with each
/// object once.
#[derive(Drop)]
pub struct TypeTable {
    types: Hierarchy,
    objects: Names,
    kinds: List<u32>,
    members: Vec<Vec<u32>>,
}

impl Model for TypeTable {
    ghost use Rattle.ppddl_model.specs.Objects.{World};
    ghost use Rattle.type_table.specs.Table.{world_of, IsTable};

    ghost Value = { World };

    ghost view = { λ t. world_of t.types t.objects t.kinds };

    ghost invariant = { λ t. IsTable t.types t.objects t.kinds t.members.items };
}

impl TypeTable {
    /// The table of these declarations. It is refused where a type is its own ancestor, and for want
    /// of memory.
    pub fn make(
        alloc: Global,
        types: &[TypeDecl],
        objects: &[ObjectDecl],
    ) -> Result<TypeTable, TypeRefusal>
        requires { IsTrue (list_all (is_known types.now) objects.now) }
        ensures table { IfOk result (λ table. table ≡ table_world types.now objects.now) }
        ensures acyclic { OnOk result (has_cycle types.now ≡ false) }
        ensures cycle { IsErrOf result Cycle → has_cycle types.now ≡ true }
    {
        let types = Hierarchy::make(alloc, types)?;
        let mut names = Names::new(alloc);
        let kinds = kinds(alloc, types.names(), &mut names, objects)?;
        let members = member_rows(alloc, &types, kinds.as_slice())?;
        Ok(TypeTable {
            types,
            objects: names,
            kinds,
            members,
        })
    }

    /// The number of a type, None exactly where it is neither declared nor named as a parent nor
    /// `object`.
    pub fn type_number(&self, name: &[u8]) -> Option<u32>
        ensures number { result ≡ number_of (type_names self.now.types) name.now }
        ensures known { is_some result ≡ is_type self.now.types name.now }
    {
        self.types.number_of(name)
    }

    /// The number of an object, None exactly where it is not declared.
    pub fn object_number(&self, name: &[u8]) -> Option<u32>
        ensures { result ≡ number_of (object_names self.now) name.now }
    {
        self.objects.number_of(name)
    }

    /// Whether a type is another or is under it.
    pub fn is_under(&self, kind: u32, other: u32) -> bool
        requires kind { kind < length (type_names self.now.types) }
        requires other { other < length (type_names self.now.types) }
        ensures { result ≡ is_under self.now (type_at self.now kind) (type_at self.now other) }
    {
        self.types.is_under(kind, other)
    }

    /// Whether an object is of a type.
    pub fn is_of(&self, object: u32, kind: u32) -> bool
        requires object { object < length self.now.objects }
        requires kind { kind < length (type_names self.now.types) }
        ensures { result ≡ is_under self.now (kind_at self.now object) (type_at self.now kind) }
    {
        self.types
            .is_under(self.kinds.as_slice()[object as usize], kind)
    }

    /// The objects of a type, in declared order.
    pub fn objects_of(&self, kind: u32) -> &[u32]
        requires { kind < length (type_names self.now.types) }
        ensures objects { map (object_at self.now) result.now ≡ objects_under self.now kind }
        ensures within { All (λ o. o < length self.now.objects) result.now }
    {
        self.members[kind as usize].as_slice()
    }

    /// The name of an object.
    pub fn object_name(&self, object: u32) -> &[u8]
        requires { object < length self.now.objects }
        ensures name { result.now ≡ object_at self.now object }
        ensures number { number_of (object_names self.now) result.now ≡ Some object }
    {
        self.objects.name(object)
    }
}
