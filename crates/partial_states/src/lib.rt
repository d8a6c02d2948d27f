//! Partial states of ground problems, in which only some atoms are known: what is known of conditions and of steps there,
//! and values of sets of states and of projected states that make a balanced pair.
#![tactic(auto)]

pub mod ground_layers;
pub mod ground_rows;
pub mod informed;
mod laws;

pub use ground_layers::ground_layer_laws;
pub use ground_rows::ground_row_laws;
pub use informed::informed_laws;
pub use laws::partial_state_laws;
