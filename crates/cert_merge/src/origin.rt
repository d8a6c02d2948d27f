//! What rows of one certificate are made of.

/// The places of the row, or of the two rows of one state, that a row is made of.
#[derive(Clone, Copy, Debug, PartialEq, Eq)]
pub(crate) enum Origin {
    /// A row of the first, whose state the second has no row of.
    First(u32),
    /// A row of the second, whose state the first has no row of.
    Second(u32),
    /// A row of each.
    Both(u32, u32),
}

impl Origin {
    ghost use Rattle.std.specs.Prelude.{◌≡◌};
    ghost use Rattle.cert_merge.specs.Pairs.{taken_first, taken_second};

    /// How many rows of the first it takes.
    pub fn taken_first(self) -> usize
        ensures { result ≡ taken_first self }
    {
        match self {
            Origin::First(_) | Origin::Both(_, _) => 1,
            Origin::Second(_) => 0,
        }
    }

    /// How many rows of the second it takes.
    pub fn taken_second(self) -> usize
        ensures { result ≡ taken_second self }
    {
        match self {
            Origin::Second(_) | Origin::Both(_, _) => 1,
            Origin::First(_) => 0,
        }
    }
}
