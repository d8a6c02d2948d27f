//! Sets of rows of numbers.

ghost use Rattle.std.specs.Prelude.{◌≡◌, ◌<◌, [], IfOk};
ghost use Rattle.std.specs.List.{list_any};
ghost use Rattle.ppddl_model.specs.State.{same_name};
ghost use Rattle.type_table.specs.Numbered.{with_name};
ghost use Rattle.task_instances.specs.fact_rows.Marks.{mark_of};

use indexmap::IndexSet;
use std::alloc::{AllocError, Global};
use std::marker::Model;

/// How many marks there are, a power of two.
const MARKS: usize = 262_144;

/// By what a row is multiplied at each number (Knuth, volume 3, section 6.4).
const FACTOR: u64 = 0x9e37_79b9_7f4a_7c15;

/// Distinct rows of numbers, which are found by hash. Most that are not there have no mark, so that only a
/// few are looked up in vain. Contracts see the rows in the order in which they were put in.
#[derive(Drop)]
pub(super) struct RowSet {
    set: IndexSet<Vec<usize>>,
    marks: Vec<bool>,
}

impl Model for RowSet {
    ghost use Rattle.std.specs.Prelude.{List, map};
    ghost use Rattle.ppddl_model.specs.State.{Name};
    ghost use Rattle.type_table.specs.Reading.{items_of};
    ghost use Rattle.task_instances.specs.fact_rows.Marks.{AreMarked};

    ghost Value = { List Name };

    ghost view = { λ r. map items_of r.set.keys };

    ghost invariant = { λ r. AreMarked r.marks.items (map items_of r.set.keys) };
}

/// The place of the mark of a row.
fn mark_of(row: &[usize]) -> usize
    ensures mark { result ≡ mark_of row.now }
    ensures within { result < 262144 }
{
    let mut hash = 0u64;
    for number in row {
        hash = (hash ^ *number as u64).wrapping_mul(FACTOR);
    }
    (hash >> 46) as usize
}

impl RowSet {
    /// No rows. It is refused for want of memory alone.
    pub(super) fn new(alloc: Global) -> Result<Self, AllocError>
        ensures { IfOk result (λ r. r ≡ []) }
    {
        let marks = vec![in alloc; false; MARKS]?;
        Ok(RowSet {
            set: IndexSet::new(alloc),
            marks,
        })
    }

    /// Whether a row is among them.
    pub(super) fn has(&self, row: &[usize]) -> bool
        ensures { result ≡ list_any (same_name row.now) self.now }
    {
        if !self.marks[mark_of(row)] {
            return false;
        }
        match self.set.get_index_of(row) {
            Some(_) => true,
            None => false,
        }
    }

    /// Puts a row behind the others, where it is not among them. It is refused for want of memory alone.
    pub(super) fn add(&mut self, row: Vec<usize>) -> Result<(), AllocError>
        ensures { IfOk result (λ _. self.new ≡ with_name self.old row.items) }
    {
        self.marks[mark_of(row.as_slice())] = true;
        let Ok(_) = self.set.insert_full(row) else {
            return Err(AllocError);
        };
        Ok(())
    }
}
