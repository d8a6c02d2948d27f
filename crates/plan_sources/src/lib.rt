//! What a request takes from a shelf: the ground problem of its texts, and a certificate.
#![tactic(auto)]

mod certificates;
mod laws;
mod problems;
mod tasks;
mod texts;

pub use certificates::certificate_of;
pub use laws::source_laws;
pub use problems::{problem_of, problem_of_text};
pub use texts::Texts;
