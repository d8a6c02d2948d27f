//! Entries of the index.

ghost use Rattle.std.specs.Prelude.{◌≡◌, ◌<◌, [], ◌∷◌, length};
ghost use Rattle.applicable_actions.specs.Index.{opens};
ghost use Rattle.applicable_actions.specs.Masks.{IsMaskOf};

use crate::masked::Masked;
use crate::word_test::WordTest;
use ground_model::State;

/// An action in the index: a test that each state passes where the action is open, which is looked at
/// before anything else, and whether the test is the whole precondition.
#[derive(Clone, Copy, Drop)]
pub(crate) struct Entry {
    pub code: u16,
    /// The place of its precondition among those of the index.
    pub place: u16,
    pub is_whole: bool,
    pub test: WordTest,
}

impl Entry {
    /// The entry of the action with this code, whose precondition gets this place.
    pub(crate) fn new(code: u16, place: u16, condition: &Masked<'_>) -> Entry
        ensures code { result.code ≡ code }
        ensures place { result.place ≡ place }
        ensures head { IsMaskOf (result.test ∷ []) result.is_whole condition.now }
    {
        let (test, is_whole) = condition.head();
        Entry {
            code,
            place,
            is_whole,
            test,
        }
    }

    /// Whether the action is open in a state, by the preconditions of the index.
    pub(crate) fn opens(&self, conditions: &[Masked<'_>], state: &State) -> bool
        requires { self.now.place < length conditions.now }
        ensures { result ≡ opens conditions.now self.now state.now }
    {
        self.test.passes(state) && (self.is_whole || conditions[self.place as usize].holds(state))
    }
}
