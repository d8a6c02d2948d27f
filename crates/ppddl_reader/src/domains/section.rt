//! Sections of domains.

ghost use Rattle.std.specs.Prelude.{◌≡◌};
ghost use Rattle.ppddl_lex.specs.Words.{lowered};
ghost use Rattle.ppddl_reader.specs.domains.Domains.{is_problem_flag, section_of};

use crate::sections::symbols;
use ppddl_lex::{is_flag, is_same_word, keywords};
use ppddl_model::TextCode;

/// A section of a domain.
#[derive(Clone, Copy, Debug)]
pub enum Section {
    /// `:requirements`
    Requirements,
    /// `:types`
    Types,
    /// `:constants`
    Constants,
    /// `:predicates`
    Predicates,
    /// `:functions`
    Functions,
    /// `:action`
    Action,
}

/// Whether a word is the flag of a section that a problem has, and a domain has not.
fn is_problem_flag(word: &[u8]) -> bool
    ensures { result ≡ is_problem_flag (lowered word.now) }
{
    is_same_word(word, keywords::DOMAIN_FLAG)
        || is_same_word(word, symbols::OBJECTS_FLAG)
        || is_same_word(word, keywords::INIT_FLAG)
        || is_same_word(word, keywords::GOAL_FLAG)
        || is_same_word(word, keywords::GOAL_REWARD_FLAG)
        || is_same_word(word, keywords::METRIC_FLAG)
}

/// The section of a flag. A flag of neither a domain nor a problem is refused as `Unsupported`, and
/// every other word as `Expected`.
pub(super) fn section_of(word: &[u8]) -> Result<Section, TextCode>
    ensures { result ≡ section_of (lowered word.now) }
{
    if is_same_word(word, keywords::REQUIREMENTS_FLAG) {
        Ok(Section::Requirements)
    } else if is_same_word(word, symbols::TYPES_FLAG) {
        Ok(Section::Types)
    } else if is_same_word(word, symbols::CONSTANTS_FLAG) {
        Ok(Section::Constants)
    } else if is_same_word(word, keywords::PREDICATES_FLAG) {
        Ok(Section::Predicates)
    } else if is_same_word(word, symbols::FUNCTIONS_FLAG) {
        Ok(Section::Functions)
    } else if is_same_word(word, keywords::ACTION_FLAG) {
        Ok(Section::Action)
    } else if is_flag(word) && !is_problem_flag(word) {
        Err(TextCode::Unsupported)
    } else {
        Err(TextCode::Expected)
    }
}
