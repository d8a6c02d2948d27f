//! Acts of two certificates.

ghost use Rattle.std.specs.Prelude.{◌≡◌};
ghost use Rattle.cert_merge.specs.Tables.{from_first, from_second};

use certificate::Act;

/// What a row does, by the table of acts of one of two certificates.
#[derive(Clone, Copy, Debug, PartialEq, Eq)]
pub(crate) enum JointAct {
    /// Pays the penalty and stops.
    GiveUp,
    /// The state is a goal: nothing is left to do.
    Goal,
    /// Takes the action whose name has this place in the first table.
    First(u32),
    /// Takes the action whose name has this place in the second table.
    Second(u32),
}

impl JointAct {
    /// An act of the first certificate.
    pub fn from_first(act: Act) -> Self
        ensures { result ≡ from_first act }
    {
        match act {
            Act::GiveUp => JointAct::GiveUp,
            Act::Goal => JointAct::Goal,
            Act::Do(place) => JointAct::First(place),
        }
    }

    /// An act of the second certificate.
    pub fn from_second(act: Act) -> Self
        ensures { result ≡ from_second act }
    {
        match act {
            Act::GiveUp => JointAct::GiveUp,
            Act::Goal => JointAct::Goal,
            Act::Do(place) => JointAct::Second(place),
        }
    }
}
