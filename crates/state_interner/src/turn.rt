//! What one bucket of a run gives.

/// What one bucket of the run of a state gives.
#[derive(Clone, Copy)]
pub(crate) enum Turn {
    /// The id of the state.
    Own(u32),
    /// The bucket holds another state.
    Other,
    /// The bucket was empty, and the state has no id.
    Free,
}
