//! How large the forms of a planning task are once they are expanded: bindings, sizes, denominators and
//! costs, counted up to what 64 bits hold.

mod conditions;
mod costs;
mod counts;
mod denominators;
mod effects;
mod laws;
mod variables;

pub use conditions::condition_size;
pub use costs::{decreases, unconditional_cost};
pub use denominators::denominator;
pub use effects::effect_size;
pub use laws::size_laws;
pub use variables::{count_bindings, count_objects, objects_of};
