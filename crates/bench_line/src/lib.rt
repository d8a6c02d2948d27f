//! Laws of the line of places by which the program is measured.
#![tactic(auto)]

mod laws;

pub use laws::line_laws;
