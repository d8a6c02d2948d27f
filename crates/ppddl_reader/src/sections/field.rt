//! Fields of actions.

ghost use Rattle.std.specs.Prelude.{◌≡◌};
ghost use Rattle.ppddl_lex.specs.Words.{lowered};
ghost use Rattle.ppddl_reader.specs.sections.Actions.{field_of};

use crate::sections::symbols::{PARAMETERS_FLAG, PRECONDITION_FLAG};
use ppddl_lex::{is_same_word, keywords};

/// A field of an action.
#[derive(Clone, Copy, Debug)]
pub enum Field {
    /// `:parameters`
    Parameters,
    /// `:precondition`
    Precondition,
    /// `:effect`
    Effect,
}

/// The field of a flag; None for every other word.
pub(super) fn field_of(word: &[u8]) -> Option<Field>
    ensures { result ≡ field_of (lowered word.now) }
{
    if is_same_word(word, PARAMETERS_FLAG) {
        Some(Field::Parameters)
    } else if is_same_word(word, PRECONDITION_FLAG) {
        Some(Field::Precondition)
    } else if is_same_word(word, keywords::EFFECT_FLAG) {
        Some(Field::Effect)
    } else {
        None
    }
}
