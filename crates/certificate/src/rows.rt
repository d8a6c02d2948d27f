//! Rows in one arena.

ghost use Rattle.std.specs.Prelude.{◌≡◌, ◌-◌, ◌<◌, ◌==◌, ◌++◌, ◌∷◌, [], length, IfOk, Some};
ghost use Rattle.std.specs.Prelude.{OnOk, OnErr, option_map};
ghost use Rattle.std.specs.List.{slice_get};
ghost use Rattle.certificate.specs.Rows.{IsWithin, row_within, shown};

use crate::{Act, RowView};
use std::alloc::{AllocError, Global};
use std::marker::Model;

/// A row, whose numbers stand in this range of the arena.
#[derive(Clone, Copy, Debug)]
pub(crate) struct Head {
    pub lower: u64,
    pub upper: u64,
    pub act: Act,
    pub from: u32,
    pub to: u32,
}

/// The place as a number of 32 bits. There is no room for places above 2^32 - 1.
pub(crate) fn place_within(place: usize) -> Result<u32, AllocError>
    ensures { IfOk result (λ within. within ≡ place) }
{
    u32::try_from(place).or(Err(AllocError))
}

/// The row of a head among these numbers.
fn view_of<'a>(numbers: &'a [u32], head: &Head) -> RowView<'a>
    requires { IsWithin (length numbers.now) head.now }
    ensures { shown result ≡ row_within numbers.now head.now }
{
    RowView {
        lower: head.lower,
        upper: head.upper,
        act: head.act,
        atoms: &numbers[head.from as usize..head.to as usize],
    }
}

/// Rows in order. Their numbers share one vector, so that a row takes no memory of its own beside
/// its values and its numbers. Contracts see the list of rows.
#[derive(Debug, Drop)]
pub struct Rows {
    heads: Vec<Head>,
    numbers: Vec<u32>,
}

impl Model for Rows {
    ghost use Rattle.std.specs.Prelude.{List, map, length};
    ghost use Rattle.std.specs.List.{AllByRecursion};
    ghost use Rattle.certificate.specs.Rows.{Row, row_within, IsWithin};

    ghost Value = { List Row };

    ghost view = { λ r. map (row_within r.numbers.items) r.heads.items };

    ghost invariant = { λ r. AllByRecursion (IsWithin (length r.numbers.items)) r.heads.items };
}

impl Rows {
    /// No rows yet.
    pub fn new(alloc: Global) -> Self
        ensures { result ≡ [] }
    {
        Rows {
            heads: Vec::new(alloc),
            numbers: Vec::new(alloc),
        }
    }

    /// No rows yet, with room for so many rows and numbers.
    pub fn with_capacity(alloc: Global, rows: usize, numbers: usize) -> Result<Self, AllocError>
        ensures { IfOk result (λ made. made ≡ []) }
    {
        let heads = Vec::with_capacity(alloc, rows)?;
        let numbers = Vec::with_capacity(alloc, numbers)?;
        Ok(Rows { heads, numbers })
    }

    /// Puts a row behind the others. It is refused for want of memory alone, and the rows are then as
    /// they were; an arena has room for 2^32 - 1 numbers.
    pub fn push(&mut self, row: RowView<'_>) -> Result<(), AllocError>
        ensures pushed { OnOk result (self.new ≡ self.old ++ shown row.entry ∷ []) }
        ensures refused { OnErr result (self.new ≡ self.old) }
    {
        let from = place_within(self.numbers.len())?;
        let to = place_within(self.numbers.len().saturating_add(row.atoms.len()))?;
        self.heads.reserve(1)?;
        self.numbers.extend_from_slice(row.atoms)?;
        self.heads.push_reserved(Head {
            lower: row.lower,
            upper: row.upper,
            act: row.act,
            from,
            to,
        });
        Ok(())
    }

    /// The number of rows.
    pub fn len(&self) -> usize
        ensures { result ≡ length self.now }
    {
        self.heads.len()
    }

    /// Whether there is no row.
    pub fn is_empty(&self) -> bool
        ensures { result ≡ (length self.now == 0) }
    {
        self.heads.is_empty()
    }

    /// The row in this place.
    pub fn row(&self, place: usize) -> RowView<'_>
        requires { place < length self.now }
        ensures { slice_get self.now place ≡ Some (shown result) }
    {
        view_of(&self.numbers, &self.heads[place])
    }

    /// The last row, if there is one.
    pub fn last(&self) -> Option<RowView<'_>>
        ensures { option_map shown result ≡ slice_get self.now (length self.now - 1) }
    {
        let head = self.heads.last()?;
        Some(view_of(&self.numbers, head))
    }
}
