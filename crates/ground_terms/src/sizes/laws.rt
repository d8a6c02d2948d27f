//! Laws of the words by which sizes are counted.

ghost use Rattle.ground_terms.specs.sizes.Laws.{MadeIsTyped, SizesForgetValues, DenominatorsForgetValues};

/// A world whose table was made is typed, and sizes and denominators do not depend on the values of
/// functions.
pub fn size_laws()
    ensures typed { MadeIsTyped }
    ensures sizes { SizesForgetValues }
    ensures denominators { DenominatorsForgetValues }
{}
