//! What a group is that stands for an effect.

ghost use Rattle.std.specs.Prelude.{◌≡◌};
ghost use Rattle.ppddl_lex.specs.Words.{lowered};
ghost use Rattle.ppddl_forms.specs.Effects.{is_unsupported, effect_head};

use ppddl_lex::{is_same_word, keywords};

/// What a group is that stands for an effect, by the word with which it begins.
#[derive(Clone, Copy, Debug)]
pub enum EffectHead {
    /// `not`
    Not,
    /// `and`
    And,
    /// `forall`
    Forall,
    /// `when`
    When,
    /// `probabilistic`
    Probabilistic,
    /// `decrease`
    Decrease,
    /// `increase`, `assign`, `scale-up` or `scale-down`, which are not accepted.
    Unsupported,
    /// Every other word, which should be the name of a predicate.
    Predicate,
}

/// Whether a word changes a fluent in a way that is not accepted.
fn is_unsupported(word: &[u8]) -> bool
    ensures { result ≡ is_unsupported (lowered word.now) }
{
    is_same_word(word, keywords::INCREASE)
        || is_same_word(word, keywords::ASSIGN)
        || is_same_word(word, keywords::SCALE_UP)
        || is_same_word(word, keywords::SCALE_DOWN)
}

/// What a group is that begins with this word.
pub(crate) fn effect_head(word: &[u8]) -> EffectHead
    ensures { result ≡ effect_head (lowered word.now) }
{
    if is_same_word(word, keywords::NOT) {
        EffectHead::Not
    } else if is_same_word(word, keywords::AND) {
        EffectHead::And
    } else if is_same_word(word, keywords::FORALL) {
        EffectHead::Forall
    } else if is_same_word(word, keywords::WHEN) {
        EffectHead::When
    } else if is_same_word(word, keywords::PROBABILISTIC) {
        EffectHead::Probabilistic
    } else if is_same_word(word, keywords::DECREASE) {
        EffectHead::Decrease
    } else if is_unsupported(word) {
        EffectHead::Unsupported
    } else {
        EffectHead::Predicate
    }
}
