//! The program as one call, from the words of the command line to the status, and the laws that
//! carry what it answers to the task of the texts.
#![tactic(auto)]

mod benching;
mod certificates;
mod commands;
mod drawing;
mod judging;
mod merging;
mod pair;
mod program;
mod progress_lines;
mod reasons;
mod serving;
mod solving;
mod walking;

pub use certificates::task_certificate_laws;
pub use program::run;
pub use progress_lines::ProgressLines;
