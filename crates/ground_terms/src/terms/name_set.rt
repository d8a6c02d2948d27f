//! Sets of names.

ghost use Rattle.std.specs.Prelude.{◌≡◌, [], IfOk, position};
ghost use Rattle.std.specs.List.{list_any};
ghost use Rattle.ppddl_model.specs.State.{same_name};
ghost use Rattle.type_table.specs.Numbered.{with_name};

use indexmap::IndexSet;
use std::alloc::{AllocError, Global};
use std::marker::Model;

/// Distinct names, which are found by hash. Contracts see them in the order in which they were put in.
#[derive(Drop)]
pub struct NameSet {
    alloc: Global,
    set: IndexSet<Vec<u8>>,
}

impl Model for NameSet {
    ghost use Rattle.std.specs.Prelude.{List, map};
    ghost use Rattle.ppddl_model.specs.State.{Name};
    ghost use Rattle.type_table.specs.Reading.{items_of};

    ghost Value = { List Name };

    ghost view = { λ n. map items_of n.set.keys };
}

impl NameSet {
    /// No names.
    pub fn new(alloc: Global) -> Self
        ensures { result ≡ [] }
    {
        NameSet {
            alloc,
            set: IndexSet::new(alloc),
        }
    }

    /// The place of a name, None where it is not among them.
    pub fn place(&self, name: &[u8]) -> Option<usize>
        ensures { result ≡ position (same_name name.now) self.now }
    {
        self.set.get_index_of(name)
    }

    /// Whether a name is among them.
    pub fn has(&self, name: &[u8]) -> bool
        ensures { result ≡ list_any (same_name name.now) self.now }
    {
        match self.set.get_index_of(name) {
            Some(_) => true,
            None => false,
        }
    }

    /// Puts a name behind the others, where it is not among them. It is refused for want of memory
    /// alone.
    pub fn add(&mut self, name: &[u8]) -> Result<(), AllocError>
        ensures { IfOk result (λ _. self.new ≡ with_name self.old name.now) }
    {
        let copy = Vec::from_slice(self.alloc, name)?;
        let Ok(_) = self.set.insert_full(copy) else {
            return Err(AllocError);
        };
        Ok(())
    }
}
