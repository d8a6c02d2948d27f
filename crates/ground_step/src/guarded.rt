//! What the guarded parts of a choice do, in place. Of the first ones marks say which can act, so that the others are
//! not tested.

ghost use Rattle.std.specs.Prelude.{◌≡◌, ◌<◌, ◌≤◌, ◌+◌, ◌%◌, ◌^◌, false, nat_eq, length, take};
ghost use Rattle.ground_model.specs.Choices.{active_cost};
ghost use Rattle.ground_model.specs.Packed.{has_bit};
ghost use Rattle.ground_model.specs.Truth.{truth};
ghost use Rattle.ground_step.specs.Acting.{IsNever, AreActing};
ghost use Rattle.ground_step.specs.Edits.{with_parts, without_parts};
ghost use Rattle.ground_step.specs.Marks.{marks_of, with_marked};

use crate::changes::{add_all, delete_all};
use crate::conditions::{guard_holds, holds};
use ground_model::{Guarded, State};

/// How many guarded parts have a mark: one for each bit of a word.
pub(crate) const MARKS: usize = 64;

/// Which of the first guarded parts hold, the first in the lowest bit, and a cost with that of all that
/// hold.
#[derive(Drop)]
pub(crate) struct Held {
    pub(crate) marks: u64,
    pub(crate) cost: u64,
}

/// Whether the condition of a part holds in a state. The lowest of the marks is that of the part: without one the
/// condition is not tested.
#[inline(always)]
fn part_holds(part: &Guarded, before: &State, marks: u64) -> bool
    requires { nat_eq (marks % 2) 1 ≡ false → IsNever part.now.condition }
    ensures { result ≡ truth (has_bit before.now) part.now.condition }
{
    marks % 2 == 1 && guard_holds(&part.condition, before)
}

/// Makes false what these parts delete where their condition holds in the state before, and answers
/// which these are, and a cost with theirs.
fn delete_marked(
    state: &mut State,
    parts: &[Guarded],
    before: &State,
    cost: u64,
    acting: u64,
) -> Held
    requires marks { length parts.now ≤ 64 }
    requires acting { AreActing acting parts.now }
    requires cost { cost + active_cost (has_bit before.now) parts.now < 2 ^ 64 }
    ensures state { state.new ≡ without_parts (has_bit before.now) state.old parts.now }
    ensures marks { result.marks ≡ marks_of (has_bit before.now) parts.now }
    ensures cost { result.cost ≡ cost + active_cost (has_bit before.now) parts.now }
{
    let mut held = Held { marks: 0, cost };
    let mut left = acting;
    for (place, part) in parts.iter().enumerate() {
        if left == 0 {
            return held;
        }
        if part_holds(part, before, left) {
            delete_all(state, part.deletes.as_slice());
            held.marks += 1 << place;
            held.cost += part.cost;
        }
        left /= 2;
    }
    held
}

/// Makes false what these parts delete where their condition holds in the state before, and answers a
/// cost with theirs.
fn delete_others(state: &mut State, parts: &[Guarded], before: &State, cost: u64) -> u64
    requires { cost + active_cost (has_bit before.now) parts.now < 2 ^ 64 }
    ensures state { state.new ≡ without_parts (has_bit before.now) state.old parts.now }
    ensures cost { result ≡ cost + active_cost (has_bit before.now) parts.now }
{
    let mut sum = cost;
    for other in parts {
        if holds(&other.condition, before) {
            delete_all(state, other.deletes.as_slice());
            sum += other.cost;
        }
    }
    sum
}

/// Makes false what the guarded parts delete whose condition holds in the state before, and answers
/// which of the first ones these are, and a cost with theirs.
pub(crate) fn delete_guarded(
    state: &mut State,
    parts: &[Guarded],
    before: &State,
    cost: u64,
    acting: u64,
) -> Held
    requires acting { AreActing acting (take 64 parts.now) }
    requires cost { cost + active_cost (has_bit before.now) parts.now < 2 ^ 64 }
    ensures state { state.new ≡ without_parts (has_bit before.now) state.old parts.now }
    ensures marks { result.marks ≡ marks_of (has_bit before.now) (take 64 parts.now) }
    ensures cost { result.cost ≡ cost + active_cost (has_bit before.now) parts.now }
{
    let (first, others) = parts.split_at(MARKS.min(parts.len()));
    let held = delete_marked(state, first, before, cost, acting);
    let cost = delete_others(state, others, before, held.cost);
    Held {
        marks: held.marks,
        cost,
    }
}

/// Makes true what the parts add that have a mark.
fn add_marked(state: &mut State, parts: &[Guarded], marks: u64)
    ensures { state.new ≡ with_marked marks state.old parts.now }
{
    let mut left = marks;
    for part in parts {
        if left == 0 {
            return;
        }
        if left % 2 == 1 {
            add_all(state, part.adds.as_slice());
        }
        left /= 2;
    }
}

/// Makes true what these parts add where their condition holds in the state before.
fn add_others(state: &mut State, parts: &[Guarded], before: &State)
    ensures { state.new ≡ with_parts (has_bit before.now) state.old parts.now }
{
    for other in parts {
        if holds(&other.condition, before) {
            add_all(state, other.adds.as_slice());
        }
    }
}

/// Makes true what the guarded parts add whose condition holds in the state before. Of the first ones the
/// marks say whether it does, and only the others are tested once more.
pub(crate) fn add_guarded(state: &mut State, parts: &[Guarded], before: &State, marks: u64)
    requires { marks ≡ marks_of (has_bit before.now) (take 64 parts.now) }
    ensures { state.new ≡ with_parts (has_bit before.now) state.old parts.now }
{
    let (first, others) = parts.split_at(MARKS.min(parts.len()));
    add_marked(state, first, marks);
    add_others(state, others, before);
}
