//! Listed states with their actions: the types of one form, of which each holds the next.

use plain_list::List;

/// The lower and the upper number of a state, in micro-units.
#[derive(Clone, Copy, Debug, PartialEq, Eq)]
pub struct Interval {
    /// The lower number.
    pub lower: u64,
    /// The upper number.
    pub upper: u64,
}

/// One outcome of an action.
#[derive(Clone, Copy, Debug, PartialEq, Eq)]
pub struct Outcome {
    /// Its probability, times the action's denominator.
    pub weight: u64,
    /// Its cost in micro-units.
    pub cost: u64,
    /// The place of the state to which it leads.
    pub next: u32,
}

/// An action. Its code is its place among the actions of its state.
#[derive(Debug, Drop, PartialEq)]
pub struct ListedAction {
    /// Its outcomes.
    pub outcomes: List<Outcome>,
    /// The sum of their weights.
    pub den: u64,
}

/// A state. Its id is its place.
#[derive(Debug, Drop, PartialEq)]
pub struct ListedState {
    /// Whether a step that leads to it answers its id.
    pub placed: bool,
    /// Whether it is a goal, where nothing is backed up.
    pub goal: bool,
    /// What can be done in it.
    pub actions: List<ListedAction>,
}

/// One start.
#[derive(Clone, Copy, Debug, PartialEq, Eq)]
pub struct ListedStart {
    /// Its probability, times the denominator of all.
    pub weight: u64,
    /// The place of its state.
    pub state: u32,
}
