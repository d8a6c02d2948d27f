//! Laws of words.

ghost use Rattle.ppddl_lex.specs.Words.{LoweringIsIdempotent, CaseOfNamesIsFree};

/// A lowered word is lowered, and a word is a name in letters of either case or in none.
pub fn word_laws()
    ensures lowered { LoweringIsIdempotent }
    ensures names { CaseOfNamesIsFree }
{}
