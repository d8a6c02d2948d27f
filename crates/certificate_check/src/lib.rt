//! The checker of certificates: whether the rows of a certificate bound the values of a ground
//! problem.
//!
//! A certificate's tables are turned into numbers of the problem once, and its rows into packed
//! states in one arena, with a hash table from states to rows. Then one pass tests each row, and
//! takes no memory.
#![tactic(auto)]

mod checker;
mod ground_rows;
mod laws;
mod numbers;
mod packing;
mod readings;
mod row_check;
mod row_table;
mod rows;
mod sides;
mod verdict;

pub use checker::check;
pub use laws::{check_laws, following_laws};
pub use row_check::{Means, Sides};
pub use sides::{row_sides, start_means};
pub use verdict::Verdict;
