//! What never changes in a planning task, found once before it is grounded, and the instances of
//! its actions that are kept.
//!
//! Types and objects, the predicates that no step changes, the facts of `:init` and the function
//! terms that have values do not change. An instance is kept where these do not say that its
//! precondition is false.
#![tactic(auto)]

mod fact_rows;
mod facts;
mod kept_rows;
mod known_conditions;
mod quantified_atoms;
mod variables;

pub use fact_rows::row_laws;
pub use facts::{TaskFacts, fact_laws};
pub use kept_rows::{Rows, kept_bindings};
pub use quantified_atoms::{AtomKind, QuantifiedAtom, atoms_of, is_settled};
pub use variables::{named_laws, named_parameters};
