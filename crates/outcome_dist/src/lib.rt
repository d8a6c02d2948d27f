//! The joint choices of an effect under a binding, worked out in exact numbers, or the first limit
//! against them.
#![tactic(auto)]

mod answering;
mod choices;
mod conditions;
mod denominators;
mod drawing;
mod lists;

pub use answering::joint;
pub use choices::Choices;
pub use conditions::{Binding, atom_numbers, ground_condition};
pub use lists::{Draft, JointRefusal, common_divisor, multiply, narrowed};
