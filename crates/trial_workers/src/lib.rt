//! Crews of workers that solve at once over the shared table: rounds of sweeps over the states near
//! the starts, and of trials.
#![tactic(auto)]

mod calls;
mod crew;
mod desk;
mod effort;
mod explorer;
mod extent;
mod meeting;
mod parting;
mod parts;
mod reading;
mod rounds;
mod solving;
mod sweeping;
mod trying;
mod unwatched;
mod watcher;
mod worker;

pub use crew::{Crew, MOST_WORKERS};
pub use effort::{Effort, Solved};
pub use explorer::{Explored, explore};
pub use extent::Extent;
pub use reading::Reading;
pub use rounds::round;
pub use solving::{solve_watched, solve_words};
pub use unwatched::Unwatched;
pub use watcher::Watcher;
pub use worker::Worker;
