//! Which variables the forms of an action name, and the law that instances in which these stand for the
//! same do the same.

mod conditions;
mod effects;
mod laws;
mod parameters;
mod terms;

pub use laws::named_laws;
pub use parameters::named_parameters;
