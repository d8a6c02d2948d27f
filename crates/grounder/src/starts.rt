//! The initial states of a task: all ways in which the `probabilistic` items of `:init` may go, merged
//! where they are equal, within the limits.

mod answering;
mod denominators;
mod growing;
mod items;
mod packing;
mod states;

pub(crate) use answering::ground_starts;
pub(crate) use states::InitialStates;
