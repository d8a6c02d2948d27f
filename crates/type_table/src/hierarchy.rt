//! The hierarchy of types by number.

ghost use Rattle.std.specs.Prelude.{◌≡◌, ◌<◌, true, false, length, IfOk, OnOk, IsErrOf};
ghost use Rattle.ppddl_model.specs.Objects.{is_under};
ghost use Rattle.type_table.specs.declared.refusal.TypeRefusal.TheVariants.{Cycle};
ghost use Rattle.type_table.specs.Numbered.{number_of};
ghost use Rattle.type_table.specs.Types.{type_names, has_cycle, under};
ghost use Rattle.type_table.specs.Hierarchy.{IsAdded};

use crate::above::Above;
use crate::link::{Link, links};
use crate::names::Names;
use crate::refusal::TypeRefusal;
use crate::rows::parent_rows;
use plain_list::List;
use ppddl_model::TypeDecl;
use std::alloc::{AllocError, Global};
use std::marker::Model;

/// The types by number, with what stands above each. Contracts see the declarations.
#[derive(Drop)]
pub(crate) struct Hierarchy {
    names: Names,
    links: List<Link>,
    above: Above,
}

impl Model for Hierarchy {
    ghost use Rattle.std.specs.Prelude.{List, map};
    ghost use Rattle.ppddl_model.specs.declared.tree.TypeDecl.{TypeDecl};
    ghost use Rattle.type_table.specs.Reading.{type_of};
    ghost use Rattle.type_table.specs.Hierarchy.{IsHierarchy};

    ghost Value = { List TypeDecl };

    ghost view = { λ h. map (type_of h.names) h.links };

    ghost invariant = { λ h. IsHierarchy h.names h.links h.above };
}

impl Hierarchy {
    /// The hierarchy of these declarations.
    pub(crate) fn make(alloc: Global, types: &[TypeDecl]) -> Result<Self, TypeRefusal>
        ensures types { IfOk result (λ made. made ≡ types.now) }
        ensures acyclic { OnOk result (has_cycle types.now ≡ false) }
        ensures cycle { IsErrOf result Cycle → has_cycle types.now ≡ true }
    {
        let mut names = Names::new(alloc);
        names.add(b"object")?;
        let links = links(alloc, &mut names, types)?;
        let parents = parent_rows(alloc, names.len(), links.as_slice())?;
        let above = Above::make(alloc, parents.as_slice(), links.as_slice())?;
        Ok(Hierarchy {
            names,
            links,
            above,
        })
    }

    /// How many types there are.
    pub(crate) fn count(&self) -> usize
        ensures { result ≡ length (type_names self.now) }
    {
        self.names.len()
    }

    /// The number of a type.
    pub(crate) fn number_of(&self, name: &[u8]) -> Option<u32>
        ensures { result ≡ number_of (type_names self.now) name.now }
    {
        self.names.number_of(name)
    }

    /// The names of the types.
    pub(crate) fn names(&self) -> &Names
        ensures { result.now ≡ type_names self.now }
    {
        &self.names
    }

    /// Whether a type is another or is under it.
    pub(crate) fn is_under(&self, kind: u32, other: u32) -> bool
        requires kind { kind < length (type_names self.now) }
        requires other { other < length (type_names self.now) }
        ensures { result ≡ under self.now kind other }
    {
        self.above.is_under(kind, other)
    }

    /// How many types an object of a type is of, `object` counted once or twice.
    pub(crate) fn count_up(&self, kind: u32) -> u64
        requires { kind < length (type_names self.now) }
    {
        self.above.count_up(kind)
    }

    /// Puts an object behind those of each type of which it is.
    pub(crate) fn add_member(
        &self,
        members: &mut Vec<Vec<u32>>,
        kind: u32,
        object: u32,
    ) -> Result<(), AllocError>
        requires kind { kind < length (type_names self.now) }
        requires many { length members.old.items ≡ length (type_names self.now) }
        ensures { OnOk result (IsAdded self.now kind members.old.items object members.new.items) }
    {
        self.above.add_member(members, kind, object)
    }
}
