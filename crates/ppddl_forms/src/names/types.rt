//! Types that were declared so far.

ghost use Rattle.std.specs.Prelude.{◌≡◌, [], ◌++◌, ◌||◌, false, true, codes, OnOk, IfOk, IsErrOf};
ghost use Rattle.std.specs.List.{list_any};
ghost use Rattle.ppddl_model.specs.Objects.{is_under};
ghost use Rattle.ppddl_model.specs.State.{same_name};
ghost use Rattle.ppddl_model.specs.WellFormed.{is_type};
ghost use Rattle.type_table.specs.declared.refusal.TypeRefusal.TheVariants.{Cycle};
ghost use Rattle.type_table.specs.Types.{table_world, has_cycle};
ghost use Rattle.ppddl_forms.specs.names.Declarations.{kinds_fit};

use ppddl_model::{List, Param, Text, TypeDecl};
use std::alloc::{AllocError, Global};
use std::marker::Model;
use type_table::{TypeRefusal, TypeTable};

/// Declarations of types, with the table of their hierarchy. Contracts see the declarations.
#[derive(Drop)]
pub(super) struct Types {
    alloc: Global,
    declared: List<TypeDecl>,
    table: TypeTable,
}

impl Model for Types {
    ghost use Rattle.std.specs.Prelude.{◌≡◌, [], List};
    ghost use Rattle.ppddl_model.specs.declared.tree.TypeDecl.{TypeDecl};
    ghost use Rattle.type_table.specs.Types.{table_world};

    ghost Value = { List TypeDecl };

    ghost view = { λ t. t.declared };

    ghost invariant = { λ t. t.table ≡ table_world t.declared [] };
}

/// Puts copies of declarations behind others. It is refused for want of memory alone.
fn push_copies(declared: &mut Vec<TypeDecl>, more: &[TypeDecl]) -> Result<(), AllocError>
    ensures { OnOk result (declared.new.items ≡ declared.old.items ++ more.now) }
{
    for type_decl in more {
        declared.push(type_decl.clone()?)?;
    }
    Ok(())
}

/// Whether a name is `object` or another name.
fn is_object_or(name: &[u8], other: &[u8]) -> bool
    ensures { result ≡ (same_name name.now (codes "object") || same_name name.now other.now) }
{
    name == b"object".as_slice() || name == other
}

impl Types {
    /// The types of these declarations. It is refused where a type is its own ancestor, and for
    /// want of memory.
    pub(super) fn make(alloc: Global, declared: List<TypeDecl>) -> Result<Self, TypeRefusal>
        ensures types { IfOk result (λ types. types ≡ declared) }
        ensures acyclic { OnOk result (has_cycle declared ≡ false) }
        ensures cycle { IsErrOf result Cycle → has_cycle declared ≡ true }
    {
        let table = TypeTable::make(alloc, declared.as_slice(), &[])?;
        Ok(Types {
            alloc,
            declared,
            table,
        })
    }

    /// The declarations, in order.
    pub(super) fn as_slice(&self) -> &[TypeDecl]
        ensures { result.now ≡ self.now }
    {
        self.declared.as_slice()
    }

    /// The types with more declarations behind them.
    pub(super) fn with(&self, more: &[TypeDecl]) -> Result<Self, TypeRefusal>
        ensures types { IfOk result (λ types. types ≡ self.now ++ more.now) }
        ensures acyclic { OnOk result (has_cycle (self.now ++ more.now) ≡ false) }
        ensures cycle { IsErrOf result Cycle → has_cycle (self.now ++ more.now) ≡ true }
    {
        let mut declared = Vec::new(self.alloc);
        push_copies(&mut declared, self.declared.as_slice())?;
        push_copies(&mut declared, more)?;
        Types::make(self.alloc, List::from_vec(declared))
    }

    /// Whether a name is `object`, a declared type or the parent of one.
    pub(super) fn is_type(&self, name: &[u8]) -> bool
        ensures { result ≡ is_type self.now name.now }
    {
        self.table.type_number(name).is_some()
    }

    /// Whether a type is another or is under it. A name that is no type is under itself and `object`.
    fn is_under(&self, kind: &[u8], other: &[u8]) -> bool
        ensures { result ≡ is_under (table_world self.now []) kind.now other.now }
    {
        let Some(kind_number) = self.table.type_number(kind) else {
            return is_object_or(other, kind);
        };
        let Some(other_number) = self.table.type_number(other) else {
            return is_object_or(other, kind);
        };
        self.table.is_under(kind_number, other_number)
    }

    /// Whether a type is, or is under, one of others.
    fn is_under_any(&self, kind: &[u8], others: &[Text]) -> bool
        ensures { result ≡ list_any (is_under (table_world self.now []) kind.now) others.now }
    {
        others
            .iter()
            .any(|other| self.is_under(kind, other.as_slice()))
    }

    /// Whether each of an argument's types is, or is under, one of the parameter's.
    pub(super) fn fit(&self, kinds: &[Text], param: &Param) -> bool
        ensures { result ≡ kinds_fit (table_world self.now []) kinds.now param.now }
    {
        kinds.iter().all(|kind| self.is_under_any(kind.as_slice(), param.kinds.as_slice()))
    }
}
