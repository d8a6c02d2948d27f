//! Conditions as lists of numbers, by which equal ones are found.

ghost use Rattle.std.specs.Prelude.{◌≡◌, ◌++◌, OnOk};
ghost use Rattle.ground_meaning.specs.choices.Same.{words_of};

use ground_model::GroundCondition;
use std::alloc::AllocError;

/// Puts the numbers of a condition behind others.
#[tactic(auto, using(crate::proofs::lemmas::lists::Conditions::words_at))]
pub(super) fn push_words(
    words: &mut Vec<u32>,
    condition: &GroundCondition,
) -> Result<(), AllocError>
    ensures { OnOk result (words.new.items ≡ words.old.items ++ words_of condition.now) }
{
    match condition {
        GroundCondition::True => words.push(1)?,
        GroundCondition::False => words.push(2)?,
        GroundCondition::Atom(atom) => {
            words.push(3)?;
            words.push(*atom)?;
        }
        GroundCondition::Not(inner) => {
            words.push(4)?;
            push_words(words, inner.get())?;
        }
        GroundCondition::All(parts) => {
            words.push(5)?;
            for part in parts.as_slice() {
                push_words(words, part)?;
            }
            words.push(0)?;
        }
        GroundCondition::Any(others) => {
            words.push(6)?;
            for other in others.as_slice() {
                push_words(words, other)?;
            }
            words.push(0)?;
        }
    }
    Ok(())
}
