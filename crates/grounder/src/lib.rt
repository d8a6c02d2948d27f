//! Tasks are grounded: the ground problem that stands for a task, or the first refusal.
#![tactic(auto)]

mod actions;
mod answering;
mod changing_atoms;
mod charging;
mod costs;
mod depth;
mod instance_names;
mod limits;
mod names;
mod objects;
mod outset;
mod parts;
mod sizing;
mod starts;
mod terms;
mod texts;

pub use answering::ground;
pub use ground_meaning::{GroundRefusal, LimitCode};
pub use limits::limit_laws;
pub use terms::Terms;
pub use texts::text_laws;
