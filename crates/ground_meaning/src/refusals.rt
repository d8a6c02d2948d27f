//! The ground problem of a task: its definition, the refusals of tasks that have none, and the law that it
//! stands for the task.

mod laws;
mod limits;
mod refusal;

pub use laws::grounding_laws;
pub use limits::{LimitCode, MOST_GROUND_SIZE, MOST_INSTANCES, MOST_OBJECTS};
pub use refusal::GroundRefusal;
