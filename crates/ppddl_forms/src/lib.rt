//! The readers of the forms of a planning text: words, typed lists of variables and objects,
//! conditions, effects and items of `:init`, by the names that were declared so far.
#![tactic(auto)]

mod chances;
mod condition_head;
mod conditions;
mod costs;
mod effect_head;
mod effects;
mod items;
mod laws;
mod name;
mod names;
mod objects;
pub mod symbols;
mod terms;
mod variables;
mod words;

pub(crate) use chances::{Chances, read_chance};
pub use conditions::read_condition;
pub(crate) use costs::read_function_term;
pub use effects::read_effect;
pub use items::{Values, read_init_item};
pub use laws::sequence_laws;
pub use name::Name;
pub use names::{Names, Scope, names_laws};
pub use objects::read_objects;
pub use ppddl_cursor::Cursor;
pub(crate) use terms::{read_atom, read_atom_in};
pub use variables::{read_variable_list, read_variables};
pub use words::{read_amount, read_flag, read_name, read_reward};
