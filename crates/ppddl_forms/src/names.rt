//! The names that planning texts have declared so far, and the variables that are in sight.
//!
//! `Names` keeps what the sections of a domain and a problem declare, in the order of the text, and
//! finds each by its name. `Scope` keeps the lists of variables that stand round a place of the text.
//! Contracts see both as plain lists; look-ups go by hash.

mod by_name;
mod laws;
mod named;
mod places;
mod scope;
mod types;

ghost use Rattle.std.specs.Prelude.{◌≡◌, ◌++◌, true, false, IfOk, OnOk, OnErr, IsErrOf};
ghost use Rattle.std.specs.Option.{option_copied};
ghost use Rattle.ppddl_model.specs.WellFormed.{is_type};
ghost use Rattle.type_table.specs.declared.refusal.TypeRefusal.TheVariants.{Cycle};
ghost use Rattle.type_table.specs.Types.{has_cycle};
ghost use Rattle.ppddl_forms.specs.names.Declarations.{Declared, nothing, world_of};
ghost use Rattle.ppddl_forms.specs.names.Declarations.{kind_named, predicate_named, kinds_fit};
ghost use Rattle.ppddl_forms.specs.names.Declarations.{with_types, with_objects, with_predicate, with_function};

use crate::names::by_name::ByName;
use crate::names::types::Types;
pub use laws::names_laws;
use ppddl_model::{List, ObjectDecl, Param, PredicateDecl, Text, TypeDecl};
pub use scope::Scope;
use std::alloc::{AllocError, Global};
use std::marker::Model;
use std::{mem, slice};
use type_table::TypeRefusal;

/// What texts have declared so far: types, objects with their types, predicates and functions.
/// Contracts see four lists, each in the order of the text, repeats kept.
#[derive(Drop)]
pub struct Names {
    types: Types,
    objects: ByName<ObjectDecl>,
    predicates: ByName<PredicateDecl>,
    functions: ByName<PredicateDecl>,
}

impl Model for Names {
    ghost use Rattle.ppddl_forms.specs.names.Declarations.{Declared};

    ghost Value = { Declared };

    ghost view = { λ n. record {
      types = n.types;
      objects = n.objects;
      predicates = n.predicates;
      functions = n.functions;
    } };
}

impl Names {
    /// Nothing declared. It is refused for want of memory alone.
    pub fn make(alloc: Global) -> Result<Names, AllocError>
        ensures { IfOk result (λ names. names ≡ nothing) }
    {
        let Ok(types) = Types::make(alloc, List::from_vec(Vec::new(alloc))) else {
            return Err(AllocError);
        };
        Ok(Names {
            types,
            objects: ByName::new(alloc),
            predicates: ByName::new(alloc),
            functions: ByName::new(alloc),
        })
    }

    /// Declares types, with their parents. It is refused where a type would be its own ancestor, and
    /// for want of memory. It takes time and memory for all types that were declared so far.
    pub fn add_types(&mut self, types: &[TypeDecl]) -> Result<(), TypeRefusal>
        ensures added { OnOk result (self.new ≡ with_types self.old types.now) }
        ensures refused { OnErr result (self.new ≡ self.old) }
        ensures acyclic { OnOk result (has_cycle self.new.types ≡ false) }
        ensures cycle { IsErrOf result Cycle → has_cycle (self.old.types ++ types.now) ≡ true }
    {
        let types = self.types.with(types)?;
        drop(mem::replace(&mut self.types, types));
        Ok(())
    }

    /// Declares objects or constants, with their types. It is refused for want of memory alone.
    pub fn add_objects(&mut self, objects: &[ObjectDecl]) -> Result<(), AllocError>
        ensures added { OnOk result (self.new ≡ with_objects self.old objects.now) }
        ensures refused { OnErr result (self.new ≡ self.old) }
    {
        self.objects.add_all(objects)
    }

    /// Declares a predicate. It is refused for want of memory alone.
    pub fn add_predicate(&mut self, predicate: &PredicateDecl) -> Result<(), AllocError>
        ensures added { OnOk result (self.new ≡ with_predicate self.old predicate.now) }
        ensures refused { OnErr result (self.new ≡ self.old) }
    {
        self.predicates.add_all(slice::from_ref(predicate))
    }

    /// Declares a function. It is refused for want of memory alone.
    pub fn add_function(&mut self, function: &PredicateDecl) -> Result<(), AllocError>
        ensures added { OnOk result (self.new ≡ with_function self.old function.now) }
        ensures refused { OnErr result (self.new ≡ self.old) }
    {
        self.functions.add_all(slice::from_ref(function))
    }

    /// The declared types, in order.
    pub fn types(&self) -> &[TypeDecl]
        ensures { result.now ≡ self.now.types }
    {
        self.types.as_slice()
    }

    /// The declared objects, in order.
    pub fn objects(&self) -> &[ObjectDecl]
        ensures { result.now ≡ self.now.objects }
    {
        self.objects.as_slice()
    }

    /// The declared predicates, in order.
    pub fn predicates(&self) -> &[PredicateDecl]
        ensures { result.now ≡ self.now.predicates }
    {
        self.predicates.as_slice()
    }

    /// The declared functions, in order.
    pub fn functions(&self) -> &[PredicateDecl]
        ensures { result.now ≡ self.now.functions }
    {
        self.functions.as_slice()
    }

    /// Whether a name is `object`, a declared type or the parent of one.
    pub fn is_type(&self, name: &[u8]) -> bool
        ensures { result ≡ is_type self.now.types name.now }
    {
        self.types.is_type(name)
    }

    /// The type of an object, by its first declaration.
    pub fn kind_of(&self, object: &[u8]) -> Option<&[u8]>
        ensures { option_copied result ≡ kind_named self.now.objects object.now }
    {
        let found = self.objects.find(object)?;
        Some(found.kind.as_slice())
    }

    /// The first predicate of a name.
    pub fn predicate(&self, name: &[u8]) -> Option<&PredicateDecl>
        ensures { option_copied result ≡ predicate_named self.now.predicates name.now }
    {
        self.predicates.find(name)
    }

    /// The first function of a name.
    pub fn function(&self, name: &[u8]) -> Option<&PredicateDecl>
        ensures { option_copied result ≡ predicate_named self.now.functions name.now }
    {
        self.functions.find(name)
    }

    /// Whether an argument of these types fits a parameter: each of its types is, or is under, one of
    /// the parameter's.
    pub fn fits(&self, kinds: &[Text], param: &Param) -> bool
        ensures { result ≡ kinds_fit (world_of self.now) kinds.now param.now }
    {
        self.types.fit(kinds, param)
    }
}
