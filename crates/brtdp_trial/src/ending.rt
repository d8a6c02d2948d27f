//! Where trials end.

ghost use Rattle.std.specs.Prelude.{◌≡◌};
ghost use Rattle.brtdp_trial.specs.Endings.{same_ends, stops_at_new};

/// Where a trial ends, if it comes to no end before.
#[derive(Clone, Copy, Debug, PartialEq, Eq)]
pub enum Ends {
    /// At the greatest number of turns.
    Depth,
    /// At the first state that was new when it was drawn, behind its backup; else at the greatest number of turns.
    New,
}

impl Ends {
    /// Whether a trial ends at a state that was new when it was drawn.
    pub(crate) fn stops_at_new(self) -> bool
        ensures { result ≡ stops_at_new self }
    {
        match self {
            Ends::Depth => false,
            Ends::New => true,
        }
    }

    /// Whether both are the same.
    pub(crate) fn is_same(self, other: Ends) -> bool
        ensures { result ≡ same_ends self other }
    {
        match self {
            Ends::Depth => !other.stops_at_new(),
            Ends::New => other.stops_at_new(),
        }
    }
}
