//! What a search answers.

use bound_core::Image;

/// What is known when a search has ended.
#[derive(Debug, Drop)]
pub struct Closing {
    /// The states that were found, with their bounds.
    pub image: Image,
    /// How many rounds were made.
    pub rounds: u32,
}
