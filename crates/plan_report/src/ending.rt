//! How a search ends.

ghost use Rattle.std.specs.Prelude.{◌≡◌};
ghost use Rattle.plan_report.specs.Solved.{ending_of};

use bound_core::Ends;

/// How a search ends.
#[derive(Clone, Copy, Debug, PartialEq, Eq)]
pub enum Ending {
    /// The interval over the starts is as narrow as was asked for.
    Converged,
    /// It is wider, and all rounds are done.
    Budget,
    /// So it is, and all ids are given out.
    TableFull,
}

/// How a search ends whose interval is this, where so many of the ids are given out.
pub(crate) fn ending_of(gap: u64, ends: Ends, given_out: u32, ids: u32) -> Ending
    ensures { result ≡ ending_of gap ends.lower ends.upper given_out ids }
{
    if ends.are_within(gap) {
        Ending::Converged
    } else if given_out >= ids {
        Ending::TableFull
    } else {
        Ending::Budget
    }
}
