//! The reader of whole planning texts: sections, domains, problems, and the task of one text or of
//! two.
#![tactic(auto)]

mod domains;
mod problems;
mod sections;
mod tasks;

pub use domains::DomainDraft;
pub use problems::ProblemDraft;
pub use sections::{ActionDraft, Start};
pub use tasks::read;
