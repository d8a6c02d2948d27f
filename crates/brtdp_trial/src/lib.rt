//! One seeded trial of bounded real-time dynamic programming over a trait, in no memory of its own.
#![tactic(auto)]

mod aim;
mod answering;
mod backing;
mod bounds;
mod draws;
mod ending;
mod ends;
mod listed;
mod listed_bounds;
mod path;
mod run;
mod start_draw;
mod step;
mod steps;
mod sums;
mod trials;
mod turn;
mod turns;

pub use aim::Aim;
pub use backing::Side;
pub use bounds::Bounds;
pub use draws::Draws;
pub use ending::Ends;
pub use ends::{Onward, Trial, TrialEnd};
pub use listed::{Interval, ListedAction, ListedStart, ListedState, Outcome};
pub use listed_bounds::ListedBounds;
pub use path::Path;
pub use plain_list::List;
pub use run::Run;
pub use start_draw::{StartDraw, StartDrawn};
pub use step::{AT_GOAL, Backed, GIVE_UP, Step};
pub use trials::trial;
pub use turn::{Drawn, Turn};
