//! What a ground problem of a task is: its joint choices, the refusals of tasks that have none, and
//! the laws that it stands for its task.
#![tactic(auto)]

mod choices;
mod progress;
mod refusals;
mod stands;

pub use choices::joint_laws;
pub use progress::{ground_progress_laws, progress_laws, task_progress_laws};
pub use refusals::{
    GroundRefusal, LimitCode, MOST_GROUND_SIZE, MOST_INSTANCES, MOST_OBJECTS, grounding_laws,
};
pub use stands::{same_cost_laws, same_level_laws, same_value_laws, stands_laws, state_laws};
