//! What the words of a command line ask for, with the numbers, ranges and defaults of all options,
//! and what stops a run, with its status.
#![tactic(auto)]

mod command;
mod drawing;
mod effort;
mod ends;
mod laws;
mod lower;
mod merging;
mod numbers;
mod progress;
mod reasons;
mod request;
mod sizes;
mod solving;
mod sources;
mod spelling;
mod stop;
mod walking;
mod words;

pub use drawing::Drawing;
pub use effort::Effort;
pub use ends::Ends;
pub use laws::request_laws;
pub use lower::Lower;
pub use merging::Merging;
pub use reasons::reason_of;
pub use request::{Request, request_of};
pub use sizes::Sizes;
pub use solving::Solving;
pub use sources::Sources;
pub use spelling::spelled_word;
pub use stop::{
    BAD_WORDS, DONE, GAP_LEFT, LIMIT, NO_MEMORY, NOT_ACCEPTED, READ_FAILED, REFUSED, Report, Stop,
    WRITE_FAILED,
};
pub use walking::Walking;
