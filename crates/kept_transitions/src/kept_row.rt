//! Where the kept actions of an id stand.

ghost use Rattle.std.specs.Prelude.{◌≡◌, ◌↔◌, IsTrue};
ghost use Rattle.kept_transitions.specs.Rows.{IsKept, untried};

/// Where the kept actions of an id stand: from `first` up to below `past`. An id of which nothing is kept has a
/// row whose first place is behind its past one.
#[derive(Clone, Copy, Drop)]
pub struct KeptRow {
    /// The place of the first action.
    pub first: u32,
    /// The place behind the last action.
    pub past: u32,
}

impl KeptRow {
    /// The row of an id that was not yet tried.
    pub const UNTRIED: KeptRow = KeptRow { first: 1, past: 0 };

    /// The row of an id of which nothing is to be kept.
    pub const NEVER: KeptRow = KeptRow { first: 2, past: 0 };

    /// Whether open actions of the id are kept.
    pub fn is_kept(self) -> bool
        ensures { IsTrue result ↔ IsKept self }
    {
        self.first <= self.past
    }

    /// Whether the id was not yet tried.
    pub fn is_untried(self) -> bool
        ensures { IsTrue result ↔ self ≡ untried }
    {
        self.first == 1 && self.past == 0
    }
}
