//! What a pass over the shared table of ids knows and has seen, as data that stands in proofs alone, and
//! what each kind of step notes.

mod laws;
mod notes;

use crate::layout::Layout;
use crate::view::notes::{Held, Number};
use ground_model::GroundProblem;
pub use laws::{seen_laws, view_laws};
pub use notes::{Load, Look, StateWord, Written};
use std::collections::LinkedList;

/// What a pass knows and has seen. In each list what was noted last stands first. No value of it is made:
/// it stands in proofs alone.
pub struct View {
    /// Whether it steps: one that another view has joined does not.
    pub live: bool,
    /// The problem of the table.
    pub problem: GroundProblem,
    /// The layout of the table.
    pub layout: Layout,
    /// The greatest count of ids given out that it has noted, 0 where it noted none.
    pub count: u64,
    /// How many ids it may hold as spares.
    pub rights: u64,
    /// The id that it has claimed and not yet published.
    pub spare: Option<u64>,
    /// What it wrote of the spare's state.
    pub draft: LinkedList<Written>,
    /// The ids that it knows.
    pub known: LinkedList<u64>,
    /// What it found in buckets.
    pub held: LinkedList<Held>,
    /// What it found, published or was given of states.
    pub words: LinkedList<StateWord>,
    /// Each number is at most the lower number of its id.
    pub lower: LinkedList<Number>,
    /// Each number is at least the upper word of its id.
    pub upper: LinkedList<Number>,
    /// What its own loads of numbers found.
    pub loads: LinkedList<Load>,
    /// What its own looks did not find.
    pub looks: LinkedList<Look>,
}
