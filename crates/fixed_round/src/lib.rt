//! Means of costs and values, rounded to whole micro-units, and the words that hold an upper value
//! beside the code of its action.
#![tactic(auto)]

mod laws;
mod mean;
mod upper_word;

pub use laws::word_laws;
pub use mean::{down, up};
pub use upper_word::UpperWord;
