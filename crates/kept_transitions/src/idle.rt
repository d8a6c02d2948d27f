//! Choices that change nothing.

ghost use Rattle.std.specs.Prelude.{◌≡◌, true};
ghost use Rattle.ground_model.specs.declared.action.Choice.{Choice};
ghost use Rattle.ground_model.specs.Choices.{next_state};
ghost use Rattle.kept_transitions.specs.Idle.{is_idle};

use ground_model::{Choice, State};

/// Whether a choice adds and deletes nothing, under no condition either. Such a choice leads from each state to
/// that state.
pub fn is_idle(choice: &Choice) -> bool
    ensures { result ≡ is_idle choice.now }
{
    choice.adds.as_slice().is_empty()
        && choice.deletes.as_slice().is_empty()
        && choice.guarded.as_slice().is_empty()
}

/// The law of idle choices: such a choice leads from a state to that state.
pub fn idle_law(state: &State)
    ensures { (choice : Choice) → is_idle choice ≡ true → next_state state.now choice ≡ state.now }
{
    // Words that are looked at are known to have 64 bits, so the state is the packed words of its bits.
    let words = state.words();
    let _count = words.len();
}
