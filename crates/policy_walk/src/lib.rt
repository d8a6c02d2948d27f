//! Walks in seeded worlds under the policy of an accepted certificate: what a run of the policy is like.
#![tactic(auto)]

mod buffer;
mod carried;
mod drawing;
mod ends;
mod laws;
mod limits;
mod making;
mod policy;
mod report;
mod row_state;
mod tables;
mod walking;

pub use buffer::{WalkBuffer, make_buffer};
pub use carried::carried_laws;
pub use ends::{Walk, WalkEnd};
pub use laws::walk_laws;
pub use limits::{MOST_STEPS, MOST_WALK_COST, MOST_WALKS};
pub use making::policy_of;
pub use policy::Policy;
pub use report::walk_report;
pub use walking::walk;
