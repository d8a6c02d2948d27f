//! What stands in the sections of planning texts, behind their flags.

mod action_draft;
mod actions;
mod field;
mod functions;
mod goals;
mod predicates;
mod start;
pub(crate) mod symbols;
mod type_list;
mod types;

pub use action_draft::ActionDraft;
pub(crate) use actions::read_action;
pub(crate) use functions::read_functions;
pub(crate) use goals::{read_domain_name, read_flags, read_goal, read_goal_reward, read_metric};
pub(crate) use predicates::read_predicates;
pub use start::Start;
pub(crate) use start::read_start;
pub(crate) use types::read_types;
