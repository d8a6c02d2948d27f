//! The gate of the real program.

use crate::Gate;

/// The gate that holds nobody.
#[derive(Clone, Copy, Debug)]
pub struct FreeGate;

impl Gate for FreeGate {
    fn pass(&self, _trial: u64) {}
}
