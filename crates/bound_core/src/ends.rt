//! What is known of states when a search has ended, as rows of a certificate, and the interval over the starts.

mod sums;

ghost use Rattle.std.specs.Prelude.{◌≡◌, ◌↔◌, ◌≤◌, ◌+◌, IsTrue};
ghost use Rattle.ground_model.specs.Invariant.{IsGroundProblem};
ghost use Rattle.bound_core.specs.ends.Closing.{IsClosing, HasStartsFirst};
ghost use Rattle.bound_core.specs.ends.Ends.{closing_low, closing_high};
ghost use Rattle.bound_core.specs.ends.Sums.{AreSums};

use crate::ImageRow;
use crate::ends::sums::Sums;
use ground_model::GroundProblem;

/// The interval over the starts when a search has ended, in micro-units: the mean of their lower bounds, rounded
/// down, and that of their upper bounds, rounded up.
#[derive(Clone, Copy, Debug, PartialEq, Eq)]
pub struct Ends {
    /// The mean of the lower bounds.
    pub lower: u64,
    /// The mean of the upper bounds.
    pub upper: u64,
}

impl Ends {
    /// Whether they differ by at most the gap.
    pub fn are_within(self, gap: u64) -> bool
        ensures { IsTrue result ↔ (self.upper ≤ self.lower + gap) }
    {
        self.upper.saturating_sub(self.lower) <= gap
    }
}

/// The sums over the starts, whose rows stand first.
fn add_up(problem: &GroundProblem, rows: &[ImageRow]) -> Sums
    requires closing { IsClosing problem.now rows.now }
    requires starts { HasStartsFirst problem.now rows.now }
    ensures sums { AreSums problem.now rows.now problem.now.starts result }
{
    let mut sums = Sums::ZERO;
    for (place, start) in problem.starts().iter().enumerate() {
        sums = sums.with(start.weight, &rows[place]);
    }
    sums
}

/// The interval over the starts, whose rows stand first, when a search has ended. It takes no memory.
pub fn ends_of(problem: &GroundProblem, rows: &[ImageRow]) -> Ends
    requires closing { IsClosing problem.now rows.now }
    requires starts { HasStartsFirst problem.now rows.now }
    ensures ends { (result.lower ≡ closing_low problem.now rows.now)
        × (result.upper ≡ closing_high problem.now rows.now) }
    ensures within_quit { (result.lower ≤ problem.now.penalty)
        × (result.upper ≤ problem.now.penalty) }
    ensures valid { IsGroundProblem problem.now }
{
    let sums = add_up(problem, rows);
    let den = u128::from(problem.start_den());
    Ends {
        lower: (sums.lower / den) as u64,
        upper: sums.upper.div_ceil(den) as u64,
    }
}
