//! What never changes in a planning task, found once before it is grounded: its types and objects, the
//! predicates that no step changes, the facts of `:init` and the function terms that have values.

mod keys;
mod laws;
mod objects;
mod predicates;
mod rows;
mod task_facts;

pub use laws::fact_laws;
pub use task_facts::TaskFacts;
