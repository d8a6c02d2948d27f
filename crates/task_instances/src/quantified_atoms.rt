//! The literals of an effect and its function terms, each with those of the quantified variables round it
//! that it names.

mod atom_kind;
mod collecting;
mod hiding;
mod quantified_atom;
mod quantifying;
mod settling;

pub use atom_kind::AtomKind;
pub use collecting::atoms_of;
pub use quantified_atom::QuantifiedAtom;
pub use settling::is_settled;
