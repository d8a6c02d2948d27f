//! What a group is that stands for a condition.

ghost use Rattle.std.specs.Prelude.{◌≡◌};
ghost use Rattle.ppddl_lex.specs.Words.{lowered};
ghost use Rattle.ppddl_forms.specs.Conditions.{is_comparison, condition_head};

use crate::symbols::{AT_LEAST, AT_MOST, EQUAL, GREATER, LESS};
use ppddl_lex::{is_same_word, keywords};

/// What a group is that stands for a condition, by the word with which it begins.
#[derive(Clone, Copy, Debug)]
pub enum ConditionHead {
    /// `not`
    Not,
    /// `and`
    And,
    /// `or`
    Or,
    /// `imply`
    Imply,
    /// `exists`
    Exists,
    /// `forall`
    Forall,
    /// `=`
    Equal,
    /// `<`, `<=`, `>` or `>=`, which are not accepted.
    Comparison,
    /// Every other word, which should be the name of a predicate.
    Predicate,
}

/// Whether a word compares fluents.
fn is_comparison(word: &[u8]) -> bool
    ensures { result ≡ is_comparison (lowered word.now) }
{
    is_same_word(word, LESS)
        || is_same_word(word, AT_MOST)
        || is_same_word(word, GREATER)
        || is_same_word(word, AT_LEAST)
}

/// What a group is that begins with this word.
pub(crate) fn condition_head(word: &[u8]) -> ConditionHead
    ensures { result ≡ condition_head (lowered word.now) }
{
    if is_same_word(word, keywords::NOT) {
        ConditionHead::Not
    } else if is_same_word(word, keywords::AND) {
        ConditionHead::And
    } else if is_same_word(word, keywords::OR) {
        ConditionHead::Or
    } else if is_same_word(word, keywords::IMPLY) {
        ConditionHead::Imply
    } else if is_same_word(word, keywords::EXISTS) {
        ConditionHead::Exists
    } else if is_same_word(word, keywords::FORALL) {
        ConditionHead::Forall
    } else if is_same_word(word, EQUAL) {
        ConditionHead::Equal
    } else if is_comparison(word) {
        ConditionHead::Comparison
    } else {
        ConditionHead::Predicate
    }
}
