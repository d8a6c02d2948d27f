//! How serving ends.

/// What ended a call of `serve`. Each other end yields to `WriteFault`, and `Input` yields to `Queries`.
#[derive(Clone, Copy, Debug, PartialEq, Eq)]
pub enum ServeEnd {
    /// The input ended.
    Input,
    /// As many queries were answered as one call answers.
    Queries,
    /// A line is too long.
    LongLine,
    /// A take failed.
    ReadFault,
    /// A put failed.
    WriteFault,
}
