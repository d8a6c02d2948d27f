//! Steps on a table.

ghost use Rattle.std.specs.Prelude.{◌≡◌, ◌+◌, None, IsTrue, IfSome};
ghost use Rattle.word_table.specs.view.Views.{IsReached};
ghost use Rattle.word_table.specs.Seen.{IsOf};
ghost use Rattle.state_interner.specs.Interned.{GoesOn, IsIdOf};
ghost use Rattle.search_tests.specs.Steps.{CanWalk, CanStep};

use ground_model::{GroundProblem, State};
use ground_step::{applicable, is_goal, successor};
use state_interner::{Interned, find, intern};
use word_table::{Pass, Words, split};

/// A pass that knows and has seen the same, with one of the claim rights.
pub(super) fn part(words: &Words<'_>, pass: &mut Pass) -> Pass
    requires can { CanWalk words.now pass.old }
    requires free { pass.old.view.spare ≡ None }
    ensures part { CanWalk words.now result × (result.view.spare ≡ None) }
    ensures here { IsOf words.now pass.new }
    ensures free { pass.new.view.spare ≡ None }
    ensures rights { pass.new.view.rights + 1 ≡ pass.old.view.rights }
{
    split(words, pass, 1)
}

/// The id of a state, looked up; None where the state has another length, too.
pub(crate) fn find_id(words: &Words<'_>, pass: &mut Pass, state: &State) -> Option<u32>
    requires here { IsOf words.now pass.old }
    ensures goes_on { GoesOn words.now pass.old pass.new }
    ensures spare { pass.new.view.spare ≡ pass.old.view.spare }
    ensures some { IfSome result (λ id. IsIdOf pass.new.view state.now id) }
{
    if state.words().len() != words.width() as usize {
        return None;
    }
    find(words, pass, state)
}

/// Whether the state is no goal, and the action is open there.
fn can_step(problem: &GroundProblem, state: &State, action: u16) -> bool
    ensures { IsTrue result → CanStep problem.now state.now action }
{
    if is_goal(problem, state) {
        return false;
    }
    let actions = problem.actions();
    if action as usize >= actions.len() {
        return false;
    }
    if !applicable(problem, action, state) {
        return false;
    }
    !actions[action as usize].choices.as_slice().is_empty()
}

/// Writes the state to which an action leads in its first way from a state that has an id. False: there is no such id, or
/// the action is not open.
pub(super) fn reach(
    words: &Words<'_>,
    pass: &mut Pass,
    state: &State,
    action: u16,
    next: &mut State,
) -> bool
    requires here { IsOf words.now pass.old }
    ensures goes_on { GoesOn words.now pass.old pass.new }
    ensures spare { pass.new.view.spare ≡ pass.old.view.spare }
    ensures reached { IsTrue result → IsReached pass.new.view next.new }
{
    let problem = words.problem();
    let Some(_id) = find_id(words, pass, state) else {
        return false;
    };
    if !can_step(problem, state, action) {
        return false;
    }
    if next.words().len() != state.words().len() {
        return false;
    }
    successor(problem, action, 0, state, next);
    true
}

/// The id of a state that is reached, looked up or given; None where the table is full.
pub(super) fn intern_id(words: &Words<'_>, pass: &mut Pass, state: &State) -> Option<u32>
    requires can { CanWalk words.now pass.old }
    requires reached { IsReached pass.old.view state.now }
    ensures can { CanWalk words.now pass.new }
    ensures goes_on { GoesOn words.now pass.old pass.new }
    ensures some { IfSome result (λ id. IsIdOf pass.new.view state.now id) }
{
    match intern(words, pass, state) {
        Interned::Id(id) => Some(id),
        Interned::Full => None,
    }
}
