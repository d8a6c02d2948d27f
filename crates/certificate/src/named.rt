//! Rows of version 1, which have names in place of numbers.

use plain_list::{List, Text};

/// What a row's policy does in its state.
#[derive(Clone, Debug, Drop, PartialEq, Eq)]
pub enum NamedAct {
    /// Pays the penalty and stops.
    GiveUp,
    /// The state is a goal: nothing is left to do.
    Goal,
    /// Takes the ground action of this name, as `(move-car l1 l2)`.
    Do(Text),
}

/// A state by its atoms, with bounds on its value in micro-units and what to do in it.
#[derive(Clone, Debug, Drop, PartialEq, Eq)]
pub struct NamedRow {
    pub lower: u64,
    pub upper: u64,
    pub act: NamedAct,
    /// The atoms that hold, as `(at l1)`.
    pub atoms: List<Text>,
}
