//! What one turn of the server did.

use crate::serve_end::ServeEnd;

/// What one turn of the server did.
#[derive(Clone, Copy)]
pub(crate) enum Turn {
    /// It answered a line.
    Answered,
    /// It answered the last line, behind which the input ended.
    AnsweredLast,
    /// It answered no query, and this ended the queries.
    Stopped(ServeEnd),
}
