//! A server that answers queries line by line while others solve: which interval and act its pass finds of a state.
//!
//! The protocol is the project's own, and follows no public standard; README.md says what a query and an answer are.
#![tactic(auto)]

mod answer;
mod answering;
mod byte_buffer;
mod ending;
mod laws;
mod limits;
mod line;
mod looking;
mod place;
mod query_buffer;
mod reading;
mod serve_end;
mod served;
mod serving;
mod taking;
mod tokens;

pub use laws::query_laws;
pub use limits::{MOST_LINE, MOST_QUERIES};
pub use query_buffer::QueryBuffer;
pub use serve_end::ServeEnd;
pub use served::Served;
pub use serving::serve;
