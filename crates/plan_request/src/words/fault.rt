//! What is at fault in words by their form.

/// What is at fault in words out of form.
#[derive(Clone, Copy, Debug, PartialEq, Eq)]
pub enum Fault<'a> {
    /// There is no word.
    NoCommand,
    /// No command has this name.
    Unknown(&'a str),
    /// This is neither a name nor an option of the command.
    Stray(&'a str),
    /// This option stood before.
    Repeated(&'a str),
    /// This option has no value.
    Unvalued(&'a str),
    /// The command has all its names before this one.
    Excess(&'a str),
    /// This name of the command is missing.
    Missing(&'a str),
}
