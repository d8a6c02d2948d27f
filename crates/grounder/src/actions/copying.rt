//! Copies of conditions.

ghost use Rattle.std.specs.Prelude.{◌≡◌, IfOk};

use ground_model::{Boxed, GroundCondition, List};
use std::alloc::{AllocError, Global};

/// The same conditions once more.
#[cycle(copying)]
fn copied_conditions(
    alloc: Global,
    conditions: &[GroundCondition],
) -> Result<List<GroundCondition>, AllocError>
    ensures { IfOk result (λ copies. copies ≡ conditions.now) }
{
    let mut copies = Vec::with_capacity(alloc, conditions.len())?;
    for condition in conditions {
        copies.push(copied_condition(alloc, condition)?)?;
    }
    Ok(List::from_vec(copies))
}

/// The same condition once more.
#[cycle(copying)]
pub(super) fn copied_condition(
    alloc: Global,
    condition: &GroundCondition,
) -> Result<GroundCondition, AllocError>
    ensures { IfOk result (λ copy. copy ≡ condition.now) }
{
    match condition {
        GroundCondition::True => Ok(GroundCondition::True),
        GroundCondition::False => Ok(GroundCondition::False),
        GroundCondition::Atom(atom) => Ok(GroundCondition::Atom(*atom)),
        GroundCondition::Not(inner) => {
            let copy = copied_condition(alloc, inner.get())?;
            Ok(GroundCondition::Not(Boxed::new(alloc, copy)?))
        }
        GroundCondition::All(parts) if parts.as_slice().is_empty() => {
            Ok(GroundCondition::All(List::from_vec(Vec::new(alloc))))
        }
        GroundCondition::All(parts) => {
            let copies = copied_conditions(alloc, parts.as_slice())?;
            Ok(GroundCondition::All(copies))
        }
        GroundCondition::Any(parts) => {
            let copies = copied_conditions(alloc, parts.as_slice())?;
            Ok(GroundCondition::Any(copies))
        }
    }
}
