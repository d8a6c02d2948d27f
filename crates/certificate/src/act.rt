//! Acts of rows.

/// What a row's policy does in its state.
#[derive(Clone, Copy, Debug, PartialEq, Eq)]
pub enum Act {
    /// Pays the penalty and stops.
    GiveUp,
    /// The state is a goal: nothing is left to do.
    Goal,
    /// Takes the ground action whose name has this place in the table of acts.
    Do(u32),
}
