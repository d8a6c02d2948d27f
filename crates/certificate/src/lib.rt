//! Certificates of versions 1 and 2 as text, both ways.
#![tactic(auto)]

mod act;
mod certificate;
mod laws;
mod limits;
mod named;
mod reading;
mod refusal;
mod row_view;
mod rows;
mod writing;

pub use act::Act;
pub use certificate::Certificate;
pub use laws::text_laws;
pub use limits::{MOST_BYTES, MOST_BYTES_1, MOST_COUNT, MOST_UNITS};
pub use named::{NamedAct, NamedRow};
pub use plain_list::{Bytes, List, Text};
pub use reading::read;
pub use refusal::{CertRefusal, WriteRefusal};
pub use row_view::RowView;
pub use rows::Rows;
pub use writing::write;
