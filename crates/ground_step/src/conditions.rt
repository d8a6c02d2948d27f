//! The truth of conditions.

ghost use Rattle.std.specs.Prelude.{◌≡◌};
ghost use Rattle.std.specs.Option.{IfSome};
ghost use Rattle.ground_model.specs.Packed.{has_bit};
ghost use Rattle.ground_model.specs.Truth.{truth};

use ground_model::{GroundCondition, State};

/// The truth of a constant, an atom or a negated atom in a state; None for any other condition.
#[inline(always)]
#[tactic(auto, using(crate::proofs::Truth::truth_at))]
fn literal_holds(condition: &GroundCondition, state: &State) -> Option<bool>
    ensures { IfSome result (λ b. b ≡ truth (has_bit state.now) condition.now) }
{
    match condition {
        GroundCondition::True => Some(true),
        GroundCondition::False => Some(false),
        GroundCondition::Atom(atom) => Some(state.has_bit(*atom)),
        GroundCondition::Not(inner) => match inner.get() {
            GroundCondition::Atom(atom) => Some(!state.has_bit(*atom)),
            _ => None,
        },
        _ => None,
    }
}

/// Whether a condition holds in a state, by its cases. Literals among the parts take no call each.
#[tactic(auto, using(crate::proofs::Truth::truth_at))]
pub fn holds(condition: &GroundCondition, state: &State) -> bool
    ensures { result ≡ truth (has_bit state.now) condition.now }
{
    match condition {
        GroundCondition::True => true,
        GroundCondition::False => false,
        GroundCondition::Atom(atom) => state.has_bit(*atom),
        GroundCondition::Not(inner) => !holds(inner.get(), state),
        GroundCondition::All(parts) => {
            for part in parts.as_slice() {
                let held = match literal_holds(part, state) {
                    Some(held) => held,
                    None => holds(part, state),
                };
                if !held {
                    return false;
                }
            }
            true
        }
        GroundCondition::Any(others) => {
            for other in others.as_slice() {
                let held = match literal_holds(other, state) {
                    Some(held) => held,
                    None => holds(other, state),
                };
                if held {
                    return true;
                }
            }
            false
        }
    }
}

/// Whether a guard holds in a state. Most guards are literals or conjunctions of literals, and are told
/// without a call.
// Inlined, as is the truth of a literal, into the one loop over guards that tests most of them.
#[inline(always)]
#[tactic(auto, using(crate::proofs::Truth::truth_at))]
pub(crate) fn guard_holds(guard: &GroundCondition, state: &State) -> bool
    ensures { result ≡ truth (has_bit state.now) guard.now }
{
    let GroundCondition::All(parts) = guard else {
        return holds(guard, state);
    };
    for part in parts.as_slice() {
        let held = match literal_holds(part, state) {
            Some(held) => held,
            None => holds(part, state),
        };
        if !held {
            return false;
        }
    }
    true
}
