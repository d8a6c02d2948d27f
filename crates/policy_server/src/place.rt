//! Places in a line.

/// Where a reader of a line stands: the offset of the next byte, and the line of the text that it is on.
#[derive(Clone, Copy)]
pub(crate) struct Place {
    pub offset: usize,
    pub row: u32,
}
