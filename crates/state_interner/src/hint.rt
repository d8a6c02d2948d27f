//! What one place of the hints holds for a state.

/// What one place of the run of a state holds.
#[derive(Clone, Copy)]
pub(crate) enum Hint {
    /// A bucket that may hold the state.
    Bucket(u32),
    /// The place is taken for another state.
    Other,
    /// The place is empty, and the run ends here.
    End,
}
