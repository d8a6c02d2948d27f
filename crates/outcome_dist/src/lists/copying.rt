//! Copies of conditions and guarded parts.

ghost use Rattle.std.specs.Prelude.{◌≡◌, ◌++◌, IfOk, OnOk};

use crate::lists::part::Part;
use ground_model::{Boxed, GroundCondition, List};
use std::alloc::{AllocError, Global};

/// The same condition once more.
pub(super) fn copied(
    alloc: Global,
    condition: &GroundCondition,
) -> Result<GroundCondition, AllocError>
    ensures { IfOk result (λ c. c ≡ condition.now) }
{
    match condition {
        GroundCondition::True => Ok(GroundCondition::True),
        GroundCondition::False => Ok(GroundCondition::False),
        GroundCondition::Atom(atom) => Ok(GroundCondition::Atom(*atom)),
        GroundCondition::Not(inner) => {
            let copy = copied(alloc, inner.get())?;
            Ok(GroundCondition::Not(Boxed::new(alloc, copy)?))
        }
        GroundCondition::All(parts) => {
            let mut copies = Vec::new(alloc);
            for part in parts.as_slice() {
                copies.push(copied(alloc, part)?)?;
            }
            Ok(GroundCondition::All(List::from_vec(copies)))
        }
        GroundCondition::Any(others) => {
            let mut copies = Vec::new(alloc);
            for other in others.as_slice() {
                copies.push(copied(alloc, other)?)?;
            }
            Ok(GroundCondition::Any(List::from_vec(copies)))
        }
    }
}

/// The same guarded part once more.
pub(super) fn copied_part(alloc: Global, part: &Part) -> Result<Part, AllocError>
    ensures { IfOk result (λ p. p ≡ part.now) }
{
    Ok(Part {
        adds: Vec::from_slice(alloc, part.adds.as_slice())?,
        deletes: Vec::from_slice(alloc, part.deletes.as_slice())?,
        cost: part.cost,
        condition: copied(alloc, &part.condition)?,
    })
}

/// Puts copies of guarded parts behind others.
pub(super) fn push_copies(
    alloc: Global,
    parts: &mut Vec<Part>,
    more: &[Part],
) -> Result<(), AllocError>
    ensures { OnOk result (parts.new.items ≡ parts.old.items ++ more.now) }
{
    for part in more {
        parts.push(copied_part(alloc, part)?)?;
    }
    Ok(())
}
