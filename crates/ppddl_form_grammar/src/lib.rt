//! Which tokens spell which forms, as relations, and the laws that the readers of forms read these
//! and no others.
#![tactic(auto)]

mod fits;
mod forms;
mod lists;

pub use fits::{declaration_laws, growth_laws, reading_laws};
pub use forms::form_laws;
pub use lists::list_laws;
