//! The entries of the index, by the atom that each requires.

ghost use Rattle.std.specs.Prelude.{◌≡◌, [], IfOk, OnOk};
ghost use Rattle.applicable_actions.specs.Runs.{Runs, run_at, put, no_entries};

use crate::entry::Entry;
use std::alloc::{AllocError, Global};
use std::marker::Model;

/// A run of entries for each atom, and those that no atom leads to.
#[derive(Drop)]
pub(crate) struct EntryRuns {
    always: Vec<Entry>,
    by_atom: Vec<Vec<Entry>>,
}

impl Model for EntryRuns {
    ghost use Rattle.std.specs.Prelude.{map};
    ghost use Rattle.applicable_actions.specs.Runs.{Runs, items_of};

    ghost Value = { Runs };

    ghost view = { λ r. record { always = r.always.items; by_atom = map items_of r.by_atom.items } };
}

impl EntryRuns {
    /// No entries, with a run for each of so many atoms.
    pub(crate) fn new(alloc: Global, atoms: usize) -> Result<Self, AllocError>
        ensures { IfOk result (λ runs. runs ≡ no_entries atoms) }
    {
        let mut by_atom = Vec::with_capacity(alloc, atoms)?;
        for _atom in 0..atoms {
            by_atom.push(Vec::new(alloc))?;
        }
        Ok(EntryRuns {
            always: Vec::new(alloc),
            by_atom,
        })
    }

    /// Puts an entry behind the others of an atom, or of those that no atom leads to.
    pub(crate) fn put(&mut self, atom: Option<u32>, entry: Entry) -> Result<(), AllocError>
        ensures { OnOk result (self.new ≡ put atom entry self.old) }
    {
        match atom {
            Some(atom) if (atom as usize) < self.by_atom.len() => {
                self.by_atom[atom as usize].push(entry)?;
            }
            _ => {
                self.always.push(entry)?;
            }
        }
        Ok(())
    }

    /// The entries that no atom leads to.
    pub(crate) fn always(&self) -> &[Entry]
        ensures { result.now ≡ self.now.always }
    {
        self.always.as_slice()
    }

    /// The entries of an atom.
    pub(crate) fn run(&self, atom: u32) -> &[Entry]
        ensures { result.now ≡ run_at self.now atom }
    {
        match self.by_atom.get(atom as usize) {
            None => &[],
            Some(run) => run.as_slice(),
        }
    }
}
