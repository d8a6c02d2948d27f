//! Where the choices of an action stand.

ghost use Rattle.std.specs.Prelude.{◌≡◌, ◌+◌, ◌≤◌, length, take, drop};

use ground_step::PreparedChoice;

/// Where the choices of an action stand among those of all actions.
#[derive(Clone, Copy, Drop)]
pub(super) struct Span {
    /// The place of the first choice.
    pub first: u32,
    /// How many there are.
    pub count: u32,
}

impl Span {
    /// The choices.
    pub(super) fn of<'s, 'p>(self, choices: &'s [PreparedChoice<'p>]) -> &'s [PreparedChoice<'p>]
        requires { self.first + self.count ≤ length choices.now }
        ensures { result.now ≡ take self.count (drop self.first choices.now) }
    {
        &choices[self.first as usize..self.first as usize + self.count as usize]
    }
}
