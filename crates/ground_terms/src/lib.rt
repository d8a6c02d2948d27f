//! What terms name once variables stand for objects, and how large the forms of a task are once
//! they are expanded.
#![tactic(auto)]

mod sizes;
mod terms;

pub use sizes::{
    condition_size, count_bindings, count_objects, decreases, denominator, effect_size, objects_of,
    size_laws, unconditional_cost,
};
pub use terms::{FunctionValues, LeastValues, NameSet, Scope, atom_key, atom_text, named};
