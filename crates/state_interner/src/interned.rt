//! What interning answers.

/// What interning a state gave.
#[derive(Clone, Copy, Debug, PartialEq, Eq)]
pub enum Interned {
    /// The id of the state.
    Id(u32),
    /// The state has no id, and all ids are given out.
    Full,
}
