//! Atoms under quantifiers.

use ppddl_model::{Atom, Param};

/// An atom of an effect, with those variables of the `forall`s round it that it names. An outer variable
/// that an inner one hides is not among them.
#[derive(Drop)]
pub struct QuantifiedAtom<'a> {
    /// The variables, the outermost first.
    pub variables: Vec<&'a Param>,
    /// The atom.
    pub atom: &'a Atom,
}
