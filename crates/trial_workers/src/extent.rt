//! How far the states near the starts go.

/// How far the states near the starts go. They were listed level by level, and have their places as ids.
#[derive(Clone, Copy, Debug, PartialEq, Eq)]
pub struct Extent {
    /// How many of the listed states are swept: those that stand first.
    pub swept: u32,
    /// In fewer than so many steps these are reached from a start. None where they are all states that can be
    /// reached.
    pub depth: Option<u32>,
}
