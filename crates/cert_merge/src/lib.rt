//! Two balanced certificates of one ground problem as one, which is the narrower at every state.
#![tactic(auto)]

mod acts;
mod claim;
mod draft;
mod ends;
mod joint_act;
mod laws;
mod merging;
mod numbering;
mod origin;
mod pairing;
mod places;
mod reading;
mod refusal;
mod row_state;
mod tables;

pub use laws::{merge_laws, merged_laws};
pub use merging::merge;
pub use refusal::MergeRefusal;
