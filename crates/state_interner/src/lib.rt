//! Ids of states, found and given out in the shared table while other passes look.
#![tactic(auto)]

mod agreeing;
mod claiming;
mod filling;
mod finding;
mod goals;
mod hint;
mod hints;
mod interned;
mod interning;
mod looking;
mod mixing;
mod nearing;
mod putting;
mod turn;

pub use agreeing::agree;
pub use finding::find;
pub use goals::sink_goal;
pub use hints::Hints;
pub use interned::Interned;
pub use interning::intern;
pub use nearing::{find_near, intern_near};
