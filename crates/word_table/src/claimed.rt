//! What a claim answers.

/// What an exchange of the count of ids gave.
#[derive(Clone, Copy, Debug, PartialEq, Eq)]
pub enum Claim {
    /// The pass holds this id as its spare.
    Own(u32),
    /// The count was another number: this one.
    Moved(u32),
}
