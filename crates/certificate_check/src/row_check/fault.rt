//! What is wrong with a row.

/// The first of the conditions on a row that fails, in the order of these variants.
#[derive(Clone, Copy, Drop, Debug, PartialEq, Eq)]
pub enum Fault {
    /// The act ends at a state that is no goal, or does anything else at a goal, or is not open.
    Act,
    /// The lower value does not follow from those of the next states.
    Lower,
    /// The upper value does not follow from those of the next states.
    Upper,
}
