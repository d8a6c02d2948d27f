//! The names of ground actions.

mod name_writer;
mod spelling;

pub(crate) use name_writer::NameWriter;
