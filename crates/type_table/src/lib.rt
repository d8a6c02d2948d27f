//! The types and the objects of a task by number.
//!
//! A table is made once of the declarations of types and objects, and answers by hash, by walks up
//! the hierarchy and by lists of objects. Types stand under `object` in a hierarchy, as in PDDL 1.2
//! (McDermott et al. 1998).
#![tactic(auto)]

mod above;
mod closure;
mod forest;
mod hierarchy;
mod laws;
mod link;
mod members;
mod names;
mod objects;
mod parents;
mod refusal;
mod rows;
mod table;

pub use laws::type_laws;
pub use refusal::TypeRefusal;
pub use table::TypeTable;
