//! The code and the cost of kept actions.

/// A code and a cost that kept actions have together. Most actions cost the same in each state, so kinds are few.
#[derive(Clone, Copy, Drop)]
pub(crate) struct Kind {
    /// The sum over the choices of weight times cost, in micro-units.
    pub(crate) cost: u64,
    /// The place of the kind of this bucket that was put before this one. There is none: a place of nothing.
    pub(crate) earlier: u32,
    /// The code of the action.
    pub(crate) code: u16,
}
