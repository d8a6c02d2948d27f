//! Joint choices while they are worked on: merging, products, guards and weights of lists of choices.
//!
//! Costs have 128 bits here. They are narrowed once a cost limit was tested.

mod atoms;
mod copying;
mod draft;
mod guarding;
mod joining;
mod key;
mod merging;
mod narrowing;
mod part;
mod product;
mod refusal;
mod same;
mod words;

pub use draft::Draft;
pub(crate) use guarding::guard_all;
pub(crate) use merging::Merging;
pub use merging::multiply;
pub use narrowing::{common_divisor, narrowed};
pub(crate) use product::Product;
pub use refusal::JointRefusal;
