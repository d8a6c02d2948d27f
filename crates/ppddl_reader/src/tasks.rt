//! Whole planning texts: a domain and a problem of it, in one text or in two.

mod definition;
mod definitions;
mod task_draft;
mod texts;

pub use texts::read;
