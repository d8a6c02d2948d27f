//! Choices that are applied in many states.

ghost use Rattle.std.specs.Prelude.{◌≡◌, ◌+◌, ◌*◌, ◌<◌, ◌≤◌, ◌^◌, cond, IsTrue, length};
ghost use Rattle.ground_model.specs.Packed.{has_bit};
ghost use Rattle.ground_model.specs.Choices.{cost_of, next_state};
ghost use Rattle.ground_step.specs.Acting.{IsNever, AreActing};

use crate::guarded::MARKS;
use crate::steps::apply_acting;
use ground_model::{Choice, GroundCondition, Guarded, MOST_CHOICE_COST, State};
use std::marker::Model;

/// A choice that is applied in many states. Guarded parts whose condition holds in none are found once, and are not
/// tested. Contracts see the choice.
#[derive(Drop)]
pub struct PreparedChoice<'p> {
    choice: &'p Choice,
    /// Which of the first guarded parts can act.
    acting: u64,
}

impl<'p> Model for PreparedChoice<'p> {
    ghost use Rattle.std.specs.Prelude.{take};
    ghost use Rattle.std.specs.Coded.{codes};
    ghost use Rattle.ground_model.specs.contracts.condition.GroundCondition as of_conditions;
    ghost use Rattle.ground_model.specs.declared.action.Choice.{Choice};
    ghost use Rattle.ground_step.specs.Acting.{AreActing};

    ghost Value = { Choice };

    ghost coded = { Prim.hlevel (codes, of_conditions.the_row.coded) };

    ghost view = { λ p. p.choice.now };

    ghost invariant = { λ p. AreActing p.acting (take 64 p.choice.now.guarded) };
}

/// Whether a condition is plainly never true: it is false, or each of its parts is to hold and one of them is so.
#[tactic(auto, using(crate::proofs::Truth::truth_at))]
fn is_never(condition: &GroundCondition) -> bool
    ensures { IsTrue result → IsNever condition.now }
{
    match condition {
        GroundCondition::False => true,
        GroundCondition::All(parts) => {
            for part in parts.as_slice() {
                if is_never(part) {
                    return true;
                }
            }
            false
        }
        _ => false,
    }
}

/// Marks with that of one part more in the lowest bit.
fn with_mark(marks: u64, acts: bool) -> u64
    requires { marks < 2 ^ 63 }
    ensures { result ≡ marks * 2 + cond acts 1 0 }
{
    if acts { marks * 2 + 1 } else { marks * 2 }
}

/// Which of the parts can act, the first in the lowest bit.
fn acting_parts(parts: &[Guarded]) -> u64
    requires { length parts.now ≤ 64 }
    ensures { AreActing result parts.now }
{
    let mut marks: u64 = 0;
    let mut place = parts.len();
    while place > 0 {
        place -= 1;
        let acts = !is_never(&parts[place].condition);
        marks = with_mark(marks, acts);
    }
    marks
}

impl<'p> PreparedChoice<'p> {
    /// The choice, once it is found which of its guarded parts can act.
    pub fn new(choice: &'p Choice) -> Self
        ensures { result ≡ choice.now }
    {
        let parts = choice.guarded.as_slice();
        let acting = acting_parts(&parts[..MARKS.min(parts.len())]);
        PreparedChoice { choice, acting }
    }

    /// The choice.
    pub fn choice(&self) -> &'p Choice
        ensures { result.now ≡ self.now }
    {
        self.choice
    }

    /// Writes the state after the choice, as `apply` does.
    pub fn apply(&self, state: &State, into: &mut State) -> u64
        requires fits { length into.old ≡ length state.now }
        requires cost { cost_of (has_bit state.now) self.now ≤ MOST_CHOICE_COST }
        ensures next { into.new ≡ next_state state.now self.now }
        ensures cost { result ≡ cost_of (has_bit state.now) self.now }
    {
        apply_acting(self.choice, self.acting, state, into)
    }
}
