//! Initial states with their denominator.

use ground_model::{List, Start};

/// The initial states of a task, in lowest terms.
#[derive(Drop, Debug)]
pub struct InitialStates {
    /// The initial states, in order. Their weights sum to the denominator.
    pub list: List<Start>,
    /// The denominator of the weights.
    pub den: u64,
}
