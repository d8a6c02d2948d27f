//! Definitions of texts.

ghost use Rattle.std.specs.Prelude.{◌≡◌};
ghost use Rattle.ppddl_lex.specs.Words.{lowered};
ghost use Rattle.ppddl_reader.specs.tasks.Texts.{definition_of};

use ppddl_lex::{is_same_word, keywords};

/// What a definition defines.
#[derive(Clone, Copy, Debug)]
pub enum Definition {
    /// `domain`
    Domain,
    /// `problem`
    Problem,
}

/// What the word of a heading defines; None for every other word.
pub(super) fn definition_of(word: &[u8]) -> Option<Definition>
    ensures { result ≡ definition_of (lowered word.now) }
{
    if is_same_word(word, keywords::DOMAIN) {
        Some(Definition::Domain)
    } else if is_same_word(word, keywords::PROBLEM) {
        Some(Definition::Problem)
    } else {
        None
    }
}
