//! A row of a certificate, as it is read.

use crate::Act;

/// A state by the numbers of its atoms, with bounds on its value in micro-units and what to do in it.
#[derive(Clone, Copy, Debug, PartialEq, Eq)]
pub struct RowView<'a> {
    pub lower: u64,
    pub upper: u64,
    pub act: Act,
    /// The places of the atoms that hold in the table of atoms.
    pub atoms: &'a [u32],
}
