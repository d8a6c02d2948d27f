//! Names by number.

ghost use Rattle.std.specs.Prelude.{◌≡◌, ◌<◌, [], length, IfOk, Some};
ghost use Rattle.std.specs.List.{position_or_len};
ghost use Rattle.ppddl_model.specs.State.{same_name};
ghost use Rattle.type_table.specs.Numbered.{number_of, name_at, with_name};

use indexmap::IndexSet;
use std::alloc::{AllocError, Global};
use std::marker::Model;

/// Distinct names; the number of a name is its place. Contracts see the names in order.
#[derive(Drop)]
pub(crate) struct Names {
    alloc: Global,
    set: IndexSet<Vec<u8>>,
}

impl Model for Names {
    ghost use Rattle.std.specs.Prelude.{List, map};
    ghost use Rattle.ppddl_model.specs.State.{Name};
    ghost use Rattle.type_table.specs.Reading.{items_of};

    ghost Value = { List Name };

    ghost view = { λ n. map items_of n.set.keys };

    // each number fits
    ghost use Rattle.std.specs.Prelude.{◌<◌, ◌^◌, length};

    ghost invariant = { λ n. length n.set.keys < 2 ^ 32 };
}

impl Names {
    /// No names.
    pub(crate) fn new(alloc: Global) -> Self
        ensures { result ≡ [] }
    {
        Names {
            alloc,
            set: IndexSet::new(alloc),
        }
    }

    /// How many names there are.
    pub(crate) fn len(&self) -> usize
        ensures { result ≡ length self.now }
    {
        self.set.len()
    }

    /// The number of a name.
    pub(crate) fn number_of(&self, name: &[u8]) -> Option<u32>
        ensures { result ≡ number_of self.now name.now }
    {
        match self.set.get_index_of(name) {
            None => None,
            Some(number) => Some(number as u32),
        }
    }

    /// The name of a number.
    pub(crate) fn name(&self, number: u32) -> &[u8]
        requires { number < length self.now }
        ensures { result.now ≡ name_at self.now number }
    {
        self.set.as_slice()[number as usize].as_slice()
    }

    /// Puts a name behind the others, where it is not among them, and gives its number. It is refused
    /// for want of memory alone, also where there are as many names as numbers.
    pub(crate) fn add(&mut self, name: &[u8]) -> Result<u32, AllocError>
        ensures added { IfOk result (λ _. self.new ≡ with_name self.old name.now) }
        ensures number { IfOk result (λ k. number_of self.new name.now ≡ Some k) }
        ensures place { IfOk result (λ k. k ≡ position_or_len (same_name name.now) self.old) }
    {
        if self.set.len() >= u32::MAX as usize {
            return Err(AllocError);
        }
        let copy = Vec::from_slice(self.alloc, name)?;
        let Ok((number, _)) = self.set.insert_full(copy) else {
            return Err(AllocError);
        };
        Ok(number as u32)
    }
}
