//! What is asked for beside a task.

/// What is asked for beside a task, in micro-units.
#[derive(Clone, Copy, Debug, PartialEq, Eq)]
pub struct Terms {
    /// The penalty of giving up. None takes the goal reward of the task.
    pub penalty: Option<u64>,
    /// What each step costs besides its effect.
    pub step_cost: u64,
}
