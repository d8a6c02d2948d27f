//! Numbers by name.

ghost use Rattle.std.specs.Prelude.{◌≡◌, [], OnOk};
ghost use Rattle.ground_terms.specs.terms.Maps.{number_in, with_number};

use indexmap::IndexMap;
use std::alloc::{AllocError, Global};
use std::marker::Model;

/// Distinct names with a number each, which are found by hash. Contracts see both, in the order in
/// which they were put in.
#[derive(Drop)]
pub(super) struct NameMap {
    alloc: Global,
    table: IndexMap<Vec<u8>, u64>,
}

impl Model for NameMap {
    ghost use Rattle.std.specs.Prelude.{ℕ, List, map};
    ghost use Rattle.ppddl_model.specs.State.{Name};
    ghost use Rattle.ground_terms.specs.terms.Maps.{entry_of};

    ghost Value = { List (Name × ℕ) };

    ghost view = { λ m. map entry_of m.table.entries };
}

impl NameMap {
    /// No names.
    pub(super) fn new(alloc: Global) -> Self
        ensures { result ≡ [] }
    {
        NameMap {
            alloc,
            table: IndexMap::new(alloc),
        }
    }

    /// The number of a name.
    pub(super) fn get(&self, name: &[u8]) -> Option<u64>
        ensures { result ≡ number_in self.now name.now }
    {
        self.table.get(name).copied()
    }

    /// Gives a name this number, whether it had one or not. It is refused for want of memory alone.
    pub(super) fn set(&mut self, name: &[u8], number: u64) -> Result<(), AllocError>
        ensures { OnOk result (self.new ≡ with_number self.old name.now number) }
    {
        let copy = Vec::from_slice(self.alloc, name)?;
        let Ok(_) = self.table.insert(copy, number) else {
            return Err(AllocError);
        };
        Ok(())
    }
}
