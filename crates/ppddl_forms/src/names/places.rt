//! Places of names.

ghost use Rattle.std.specs.Prelude.{◌≡◌, [], length, take, OnOk, OnErr};
ghost use Rattle.ppddl_forms.specs.names.Places.{place_in, with_place};

use indexmap::IndexMap;
use std::alloc::{AllocError, Global};
use std::marker::Model;

/// Distinct names with a place each. Contracts see both, in the order in which they were put in.
#[derive(Drop)]
pub(super) struct Places {
    alloc: Global,
    table: IndexMap<Vec<u8>, usize>,
}

impl Model for Places {
    ghost use Rattle.std.specs.Prelude.{ℕ, List, map};
    ghost use Rattle.ppddl_model.specs.State.{Name};
    ghost use Rattle.ppddl_forms.specs.names.Places.{entry_of};

    ghost Value = { List (Name × ℕ) };

    ghost view = { λ p. map entry_of p.table.entries };
}

impl Places {
    /// No names.
    pub(super) fn new(alloc: Global) -> Self
        ensures { result ≡ [] }
    {
        Places {
            alloc,
            table: IndexMap::new(alloc),
        }
    }

    /// How many names there are.
    pub(super) fn len(&self) -> usize
        ensures { result ≡ length self.now }
    {
        self.table.len()
    }

    /// The place of a name.
    pub(super) fn place_of(&self, name: &[u8]) -> Option<usize>
        ensures { result ≡ place_in self.now name.now }
    {
        self.table.get(name).copied()
    }

    /// Puts in a name with its place, where it has none. It is refused for want of memory alone.
    pub(super) fn add(&mut self, name: &[u8], place: usize) -> Result<(), AllocError>
        ensures added { OnOk result (self.new ≡ with_place self.old name.now place) }
        ensures refused { OnErr result (self.new ≡ self.old) }
    {
        if self.table.contains_key(name) {
            return Ok(());
        }
        let copy = Vec::from_slice(self.alloc, name)?;
        let Ok(_) = self.table.insert(copy, place) else {
            return Err(AllocError);
        };
        Ok(())
    }

    /// Keeps as many of the first names.
    pub(super) fn truncate(&mut self, len: usize)
        ensures { self.new ≡ take len self.old }
    {
        self.table.truncate(len);
    }
}
