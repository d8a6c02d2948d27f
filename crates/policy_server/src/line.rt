//! How a line was taken.

/// How a line was taken.
#[derive(Clone, Copy)]
pub(crate) enum Line {
    /// It ended with a line feed.
    Whole,
    /// The input ended behind its bytes, if there are any.
    Last,
    /// It has more bytes than a line may have.
    Long,
    /// A take failed.
    Fault,
}
