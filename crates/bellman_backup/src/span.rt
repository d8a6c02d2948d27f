//! Where the shares of an action's choices stand.

ghost use Rattle.std.specs.Prelude.{◌≡◌, ◌+◌, ◌≤◌, length, take, drop};

use crate::share::Share;

/// Where the shares of an action's choices stand among those of all actions, and its denominator.
#[derive(Clone, Copy, Drop)]
pub(crate) struct Span {
    /// The place of the first share.
    pub first: u32,
    /// How many there are: one for each choice.
    pub count: u32,
    /// The denominator of the choices.
    pub den: u64,
}

impl Span {
    /// The shares.
    pub(crate) fn of(self, shares: &[Share]) -> &[Share]
        requires { self.first + self.count ≤ length shares.now }
        ensures { result.now ≡ take self.count (drop self.first shares.now) }
    {
        &shares[self.first as usize..self.first as usize + self.count as usize]
    }
}
