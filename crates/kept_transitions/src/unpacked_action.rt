//! An open action of a state, as the place of its kind and that of its first id.

/// An open action of a state, whose code and cost stand with others that have the same.
#[derive(Clone, Copy, Drop)]
pub(crate) struct UnpackedAction {
    /// The place of its kind.
    pub(crate) kind: u32,
    /// The place of its first id.
    pub(crate) first: u32,
}
