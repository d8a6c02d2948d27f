//! The instances of actions that are kept when a task is grounded: those whose precondition is not known
//! to be false and whose function terms have values.

mod binding;
mod pattern;
mod rows;
mod stages;
mod term_test;
mod test;
mod valued;
mod variables;

pub use binding::kept_bindings;
pub use rows::Rows;
