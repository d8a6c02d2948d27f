//! Joint choices with their denominator.

use ground_model::{Choice, SharedList};

/// The joint choices of an effect, in lowest terms.
#[derive(Drop, Debug)]
pub struct Choices {
    /// The choices, in order. Their weights sum to the denominator.
    pub list: SharedList<Choice>,
    /// The denominator of the weights.
    pub den: u64,
}
