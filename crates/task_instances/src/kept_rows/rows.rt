//! Rows of numbers.

ghost use Rattle.std.specs.Prelude.{◌≡◌, ◌<◌, [], length, slice_index_or, OnOk};
ghost use Rattle.task_instances.specs.kept_rows.Rows.{no_rows, with_row};

use std::alloc::{AllocError, Global};
use std::marker::Model;

/// Rows of numbers, each of one width, one behind the other in one vector. Contracts see the width and
/// the list of the rows.
#[derive(Drop)]
pub struct Rows {
    width: usize,
    count: usize,
    numbers: Vec<u32>,
}

impl Model for Rows {
    ghost use Rattle.std.specs.Prelude.{◌≡◌, ◌*◌, length};
    ghost use Rattle.task_instances.specs.kept_rows.Rows.{Table, rows_of};

    ghost Value = { Table };

    ghost view = { λ r. record { width = r.width; rows = rows_of r.width r.count r.numbers.items } };

    ghost invariant = { λ r. length r.numbers.items ≡ r.count * r.width };
}

impl Rows {
    /// No rows of this width.
    pub fn new(alloc: Global, width: usize) -> Self
        ensures { result ≡ no_rows width }
    {
        Rows {
            width,
            count: 0,
            numbers: Vec::new(alloc),
        }
    }

    /// Puts a row behind the others. It is refused for want of memory alone, and so where no number of
    /// the machine counts the rows.
    pub fn push(&mut self, row: &[u32]) -> Result<(), AllocError>
        requires { length row.now ≡ self.old.width }
        ensures { OnOk result (self.new ≡ with_row self.old row.now) }
    {
        if self.count == usize::MAX {
            return Err(AllocError);
        }
        self.numbers.extend_from_slice(row)?;
        self.count += 1;
        Ok(())
    }

    /// How many rows there are.
    pub fn len(&self) -> usize
        ensures { result ≡ length self.now.rows }
    {
        self.count
    }

    /// The row at a place.
    pub fn row(&self, place: usize) -> &[u32]
        requires { place < length self.now.rows }
        ensures { result.now ≡ slice_index_or self.now.rows place [] }
    {
        let numbers = self.numbers.as_slice();
        let start = place * self.width;
        &numbers[start..start + self.width]
    }
}
