//! What terms name once variables stand for objects, and the names, keys and texts of ground atoms by
//! which sets and values are found.

mod function_values;
mod keys;
mod least_values;
mod name_map;
mod name_set;
mod scope;
mod texts;

pub use function_values::FunctionValues;
pub use keys::atom_key;
pub use least_values::LeastValues;
pub use name_set::NameSet;
pub use scope::{Scope, named};
pub use texts::atom_text;
