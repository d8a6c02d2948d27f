//! Sections of problems.

ghost use Rattle.std.specs.Prelude.{◌≡◌};
ghost use Rattle.ppddl_lex.specs.Words.{lowered};
ghost use Rattle.ppddl_reader.specs.problems.Problems.{is_domain_flag, section_of};

use crate::sections::symbols::{CONSTANTS_FLAG, FUNCTIONS_FLAG, OBJECTS_FLAG, TYPES_FLAG};
use ppddl_lex::{is_flag, is_same_word, keywords};
use ppddl_model::TextCode;

/// A section of a problem.
#[derive(Clone, Copy, Debug)]
pub enum Section {
    /// `:domain`
    Domain,
    /// `:requirements`
    Requirements,
    /// `:objects`
    Objects,
    /// `:init`
    Init,
    /// `:goal`
    Goal,
    /// `:goal-reward`
    GoalReward,
    /// `:metric`
    Metric,
}

/// Whether a word is the flag of a section that a domain has, and a problem has not.
fn is_domain_flag(word: &[u8]) -> bool
    ensures { result ≡ is_domain_flag (lowered word.now) }
{
    is_same_word(word, TYPES_FLAG)
        || is_same_word(word, CONSTANTS_FLAG)
        || is_same_word(word, keywords::PREDICATES_FLAG)
        || is_same_word(word, FUNCTIONS_FLAG)
        || is_same_word(word, keywords::ACTION_FLAG)
}

/// The section of a flag. Another flag is unsupported, unless a domain has it.
pub(super) fn section_of(word: &[u8]) -> Result<Section, TextCode>
    ensures { result ≡ section_of (lowered word.now) }
{
    if is_same_word(word, keywords::DOMAIN_FLAG) {
        Ok(Section::Domain)
    } else if is_same_word(word, keywords::REQUIREMENTS_FLAG) {
        Ok(Section::Requirements)
    } else if is_same_word(word, OBJECTS_FLAG) {
        Ok(Section::Objects)
    } else if is_same_word(word, keywords::INIT_FLAG) {
        Ok(Section::Init)
    } else if is_same_word(word, keywords::GOAL_FLAG) {
        Ok(Section::Goal)
    } else if is_same_word(word, keywords::GOAL_REWARD_FLAG) {
        Ok(Section::GoalReward)
    } else if is_same_word(word, keywords::METRIC_FLAG) {
        Ok(Section::Metric)
    } else if is_flag(word) && !is_domain_flag(word) {
        Err(TextCode::Unsupported)
    } else {
        Err(TextCode::Expected)
    }
}
