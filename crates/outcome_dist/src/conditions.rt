//! Conditions of a task under a binding as conditions on packed states.

mod atoms;
mod binding;
mod grounding;

pub use atoms::atom_numbers;
pub use binding::Binding;
pub use grounding::ground_condition;
