//! Lists that are shared by their copies, and that a contract sees as the list that they hold.
//!
//! A copy is one more owner of the same items, in any thread. Only `from_vec` takes memory.

mod shared_list;

pub use shared_list::SharedList;
