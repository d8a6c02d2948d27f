//! The atom by which an action is found.

ghost use Rattle.std.specs.Prelude.{Contains, IfSome};

use crate::left_out::is_left_out;
use ground_model::{GroundCondition, GroundProblem};
use std::alloc::{AllocError, Global};

/// Counts the atoms that a condition requires.
fn count_required(condition: &GroundCondition, counts: &mut [u32]) {
    match condition {
        GroundCondition::Atom(atom) => {
            if let Some(count) = counts.get_mut(*atom as usize) {
                *count = count.saturating_add(1);
            }
        }
        GroundCondition::All(parts) => {
            for part in parts.as_slice() {
                count_required(part, counts);
            }
        }
        _ => {}
    }
}

/// How often each atom is required by the actions that are not left out.
pub(crate) fn counts(
    alloc: Global,
    problem: &GroundProblem,
    left_out: &[bool],
) -> Result<Vec<u32>, AllocError> {
    let mut counts = vec![in alloc; 0u32; problem.atoms().len()]?;
    for (code, action) in problem.actions().iter().enumerate() {
        if !is_left_out(left_out, code) {
            count_required(&action.condition, counts.as_mut_slice());
        }
    }
    Ok(counts)
}

/// The atom of a list that has the least count.
pub(crate) fn rarest(counts: &[u32], atoms: &[u32]) -> Option<u32>
    ensures { IfSome result (λ atom. Contains atoms.now atom) }
{
    let mut found = None;
    let mut least = u32::MAX;
    for atom in atoms {
        let count = match counts.get(*atom as usize) {
            None => u32::MAX,
            Some(count) => *count,
        };
        if count < least {
            least = count;
            found = Some(*atom);
        }
    }
    found
}
