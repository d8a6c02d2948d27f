//! Steps of ground problems on packed states, in place.
//!
//! Whether an action is open in a state and whether a state is a goal, the state after a choice and what
//! it costs, the numbers of atoms and actions by their texts, and the hash of a state. Only
//! `ActionNames::new` and `atoms_of` take memory.
#![tactic(auto)]

mod action_names;
mod atoms;
mod changes;
mod conditions;
mod guarded;
mod hashing;
mod laws;
mod prepared_choice;
mod steps;
mod true_bits;

pub use action_names::ActionNames;
pub use atoms::{atom_number, atoms_of, make_all_false, state_of_atoms};
pub use changes::{make_false, make_true};
pub use conditions::holds;
pub use hashing::hash;
pub use laws::step_laws;
pub use prepared_choice::PreparedChoice;
pub use steps::{applicable, apply, is_goal, successor};
pub use true_bits::{TrueAtoms, true_atoms};
