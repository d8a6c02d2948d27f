//! The kept instances of all actions of a task, and its changing atoms and facts by number.

mod atoms;
mod counting;
mod facts;
mod kept;
mod under;

pub(crate) use atoms::changing_texts;
pub(crate) use facts::fact_list;
pub(crate) use kept::kept_of_actions;
