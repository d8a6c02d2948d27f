//! The ground actions of a task: its kept instances, formed one after another within the limits.

mod agreeing;
mod answering;
mod copying;
mod forming;
mod growing;
mod instances;
mod walking;

pub(crate) use answering::ground_actions;
use ground_model::{GroundAction, List};

/// The ground actions of a task, and the ground size with them.
#[derive(Drop, Debug)]
pub struct GroundActions {
    /// The kept instances, in order.
    pub list: List<GroundAction>,
    /// The sizes of the tried preconditions, and of each effect for each of its choices.
    pub size: u64,
}
