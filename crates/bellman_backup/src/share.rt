//! Choices of actions whose transitions are kept.

ghost use Rattle.std.specs.Prelude.{◌≡◌, ◌<◌, true, cond, Some, length};
ghost use Rattle.std.specs.List.{slice_get};
ghost use Rattle.bellman_backup.specs.Odds.{share_of};

use ground_model::Choice;
use kept_transitions::is_idle;

/// What is read of a choice beside the id that is kept of it.
#[derive(Clone, Copy, Drop, PartialEq)]
pub(crate) struct Share {
    /// The weight of the choice.
    pub weight: u64,
    /// Whether the choice is not idle, so that the id of the state to which it leads is kept.
    pub moves: bool,
}

impl Share {
    /// The share of a choice.
    pub(crate) fn of(choice: &Choice) -> Share
        ensures { result ≡ share_of choice.now }
    {
        Share {
            weight: choice.weight,
            moves: !is_idle(choice),
        }
    }

    /// The id of the state to which the choice leads: the one that is kept in this place, or where the choice is idle
    /// that of the state itself.
    pub(crate) fn id_in(self, own: u32, ids: &[u32], place: usize) -> u32
        requires { self.moves ≡ true → place < length ids.now }
        ensures { cond self.moves (slice_get ids.now place) (Some own) ≡ Some result }
    {
        if self.moves { ids[place] } else { own }
    }
}
