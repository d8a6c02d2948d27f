//! Balanced pairs: what is said of every state before any row of a certificate is read, as a sub- and a super-solution of
//! the Bellman equation, and how such pairs are made.
#![tactic(auto)]

mod laws;
pub mod layers;
pub mod partial_rows;
pub mod uncut;

pub use laws::pair_laws;
pub use layers::layer_laws;
pub use partial_rows::partial_row_laws;
pub use uncut::uncut_laws;
