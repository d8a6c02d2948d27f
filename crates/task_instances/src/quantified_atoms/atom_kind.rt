//! The atoms that effects name.

/// Which atoms of an effect are meant.
#[derive(Clone, Copy, Debug, PartialEq, Eq)]
pub enum AtomKind {
    /// Those that it adds or deletes.
    Literal,
    /// The function terms by which it names costs.
    FunctionTerm,
}
