//! What a group is that stands for an item of `:init`.

ghost use Rattle.std.specs.Prelude.{◌≡◌};
ghost use Rattle.ppddl_lex.specs.Words.{lowered};
ghost use Rattle.ppddl_forms.specs.items.Items.{is_effect, init_head};

use crate::symbols::EQUAL;
use ppddl_lex::{is_same_word, keywords};

/// What a group is that stands for an item of `:init`, by the word with which it begins.
#[derive(Clone, Copy, Debug)]
pub(super) enum InitHead {
    /// `not`
    Not,
    /// `probabilistic`
    Probabilistic,
    /// `=`
    Value,
    /// A word of effects or conditions that is not accepted here.
    Unsupported,
    /// Every other word, which should be the name of a predicate.
    Predicate,
}

/// Whether a word begins an effect that is no item.
fn is_effect(word: &[u8]) -> bool
    ensures { result ≡ is_effect (lowered word.now) }
{
    is_same_word(word, keywords::INCREASE)
        || is_same_word(word, keywords::DECREASE)
        || is_same_word(word, keywords::ASSIGN)
        || is_same_word(word, keywords::WHEN)
        || is_same_word(word, keywords::FORALL)
        || is_same_word(word, keywords::AND)
}

/// What a group is that begins with this word.
pub(super) fn init_head(word: &[u8]) -> InitHead
    ensures { result ≡ init_head (lowered word.now) }
{
    if is_same_word(word, keywords::NOT) {
        InitHead::Not
    } else if is_same_word(word, keywords::PROBABILISTIC) {
        InitHead::Probabilistic
    } else if is_same_word(word, EQUAL) {
        InitHead::Value
    } else if is_effect(word) {
        InitHead::Unsupported
    } else {
        InitHead::Predicate
    }
}
