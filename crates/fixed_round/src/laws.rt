//! Laws of upper words.

ghost use Rattle.fixed_round.specs.Laws.{PartsAreExact, WordsAreExact, OrderIsByValue};

/// What words, their values and their codes are to each other.
pub fn word_laws()
    ensures parts { PartsAreExact }
    ensures word { WordsAreExact }
    ensures order { OrderIsByValue }
{}
