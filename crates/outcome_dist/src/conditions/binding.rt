//! What names stand for where an effect or a condition is grounded.

use ground_terms::{FunctionValues, NameSet, Scope};
use type_table::TypeTable;

/// What names stand for where an effect or a condition is grounded.
#[derive(Clone, Copy)]
pub struct Binding<'a> {
    /// The types and objects of the task.
    pub table: &'a TypeTable,
    /// The values that `:init` gives to function terms.
    pub values: &'a FunctionValues<'a>,
    /// The texts of the atoms that may change; the number of an atom is its place.
    pub atoms: &'a NameSet,
    /// The texts of the facts of `:init`.
    pub facts: &'a NameSet,
    /// What the variables in sight stand for.
    pub scope: &'a Scope<'a>,
}
