//! Which texts spell which tasks, as relations, and the laws that the reader reads these and no
//! others, and that what it reads is well-formed.
#![tactic(auto)]

mod definitions;
mod fits;
mod sections;
mod texts;
mod well_formed;

pub use definitions::definition_laws;
pub use fits::{action_laws, declaration_laws, name_laws, problem_laws};
pub use sections::section_laws;
pub use texts::text_laws;
pub use well_formed::task_laws;
