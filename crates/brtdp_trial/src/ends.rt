//! How a trial ends.

/// How a trial ended.
#[derive(Clone, Copy, Debug, PartialEq, Eq)]
pub enum TrialEnd {
    /// At a state where giving up is best.
    Dead,
    /// Where what may follow is narrow, or already at the starts.
    Narrow,
    /// At the greatest number of turns.
    Depth,
    /// At a state that was new when it was drawn, behind its backup.
    New,
    /// Before a state that has no id.
    Unplaced,
}

/// What a trial answers.
#[derive(Clone, Copy, Debug, PartialEq, Eq)]
pub struct Trial {
    /// How it ended.
    pub end: TrialEnd,
    /// The number of its turns.
    pub length: u32,
}

/// What follows a turn.
#[derive(Clone, Copy, Debug, PartialEq, Eq)]
pub enum Onward {
    /// The trial ends.
    Ends(TrialEnd),
    /// It goes on at a state.
    Goes {
        /// The id of the state.
        id: u32,
        /// Whether it was new when it was drawn.
        new: bool,
    },
}
