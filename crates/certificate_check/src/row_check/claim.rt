//! What a row claims of its state.

ghost use Rattle.std.specs.Prelude.{◌≡◌};
ghost use Rattle.certificate_check.specs.row_check.Sides.{has_upper_within};

use crate::row_check::act::Act;

/// A lower and an upper value in micro-units, and what is done.
#[derive(Clone, Copy, Drop)]
pub struct Claim {
    /// No plan costs less.
    pub lower: u64,
    /// The act leads on at no more than this.
    pub upper: u64,
    /// What is done.
    pub act: Act,
}

impl Claim {
    /// Whether the upper value is at least this; at a goal, whether it is this.
    pub(super) fn has_upper_within(self, least: u128) -> bool
        ensures { result ≡ has_upper_within self.act self.upper least }
    {
        match self.act {
            Act::Goal => u128::from(self.upper) == least,
            Act::GiveUp | Act::Do(_) => least <= u128::from(self.upper),
        }
    }
}
