//! What is at fault in words in form.

use crate::reasons::value_kind::ValueKind;

/// What is at fault in words in form that ask for nothing.
#[derive(Clone, Copy, Debug, PartialEq, Eq)]
pub(super) enum ValueFault<'a> {
    /// This option is wanted, and is not given.
    Lacking(&'a str),
    /// This is given under a name that takes another kind.
    Unfit(ValueKind, &'a str, &'a str),
    /// As many states are swept as the table holds, or more.
    Swept,
}
