//! The search as a whole, alone or beside a server: from the problem to the bytes that are written
//! and put.
#![tactic(auto)]

mod answer;
mod answering;
mod found;
mod laws;
mod measured;
mod service;
mod serving;
mod solver;
mod solving;
mod terms;
mod under;

pub use answer::Answer;
pub use laws::under_laws;
pub use measured::Measured;
pub use serving::serve;
pub use solver::{Effort, Opening, Sizes, finish, make_crew, open, search_laws};
pub use solving::{measure, solve};
