//! What a row does.

ghost use Rattle.std.specs.Prelude.{◌≡◌, ◌↔◌, IsTrue};
ghost use Rattle.certificate_check.specs.declared.row_check.act.Act.TheVariants.{Do};
ghost use Rattle.certificate_check.specs.row_check.Sides.{quitting, ending};

/// What a row says is done in its state.
#[derive(Clone, Copy, Drop, Debug, PartialEq, Eq)]
pub enum Act {
    /// To give up.
    GiveUp,
    /// To end at a goal.
    Goal,
    /// To take the action with this code.
    Do(u16),
}

impl Act {
    /// Whether this is to take the action with this code.
    pub(super) fn takes(self, code: u16) -> bool
        ensures { IsTrue result ↔ (self ≡ Do code) }
    {
        match self {
            Act::Do(own) => own == code,
            Act::GiveUp | Act::Goal => false,
        }
    }

    /// What giving up costs, if this is to give up.
    pub(super) fn quits(self, penalty: u64) -> Option<u128>
        ensures { result ≡ quitting penalty self }
    {
        match self {
            Act::GiveUp => Some(u128::from(penalty)),
            Act::Goal | Act::Do(_) => None,
        }
    }

    /// What ending at a goal costs, if this is to end there.
    pub(super) fn ends(self) -> Option<u128>
        ensures { result ≡ ending self }
    {
        match self {
            Act::Goal => Some(0),
            Act::GiveUp | Act::Do(_) => None,
        }
    }
}
