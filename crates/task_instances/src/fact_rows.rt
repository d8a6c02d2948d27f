//! Ground atoms as rows of numbers, by which it is found whether an atom is among others without a name
//! or a text.

mod atom_rows;
mod laws;
mod row_set;

pub(crate) use atom_rows::AtomRows;
pub use laws::row_laws;
