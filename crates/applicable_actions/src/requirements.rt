//! What a condition requires: masks of words and atoms.

ghost use Rattle.std.specs.Prelude.{IfOk, OnOk};
ghost use Rattle.applicable_actions.specs.Masks.{AddsLiteral, AddsLiterals};

use crate::word_test::WordTest;
use ground_model::GroundCondition;
use std::alloc::AllocError;

/// Puts a literal into the test of its word, or behind the others where its word has no test.
fn add_literal(tests: &mut Vec<WordTest>, atom: u32, is_true: bool) -> Result<(), AllocError>
    ensures { OnOk result (AddsLiteral tests.old.items atom is_true tests.new.items) }
{
    let place = atom / 64;
    for k in 0..tests.len() {
        if tests[k].place == place {
            tests[k] = tests[k].with_literal(atom, is_true);
            return Ok(());
        }
    }
    let fresh = WordTest {
        place,
        required: 0,
        excluded: 0,
    };
    tests.push(fresh.with_literal(atom, is_true))?;
    Ok(())
}

/// Puts the literals of a conjunction behind others, and those atoms that it requires. Whether they
/// are the whole condition.
pub(crate) fn collect(
    condition: &GroundCondition,
    tests: &mut Vec<WordTest>,
    atoms: &mut Vec<u32>,
) -> Result<bool, AllocError>
    ensures { IfOk result (AddsLiterals condition.now tests.old atoms.old tests.new atoms.new) }
{
    match condition {
        GroundCondition::True => Ok(true),
        GroundCondition::Atom(atom) => {
            add_literal(tests, *atom, true)?;
            atoms.push(*atom)?;
            Ok(true)
        }
        GroundCondition::Not(inner) => match inner.get() {
            GroundCondition::Atom(atom) => {
                add_literal(tests, *atom, false)?;
                Ok(true)
            }
            _ => Ok(false),
        },
        GroundCondition::All(parts) => {
            let mut is_whole = true;
            for part in parts.as_slice() {
                is_whole &= collect(part, tests, atoms)?;
            }
            Ok(is_whole)
        }
        GroundCondition::False | GroundCondition::Any(_) => Ok(false),
    }
}
