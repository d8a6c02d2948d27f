//! The interval of a certificate.

ghost use Rattle.std.specs.Prelude.{◌≡◌, ◌↔◌, IsTrue};
ghost use Rattle.decision_process.specs.Backup.{floor, ceiling};
ghost use Rattle.certificate_check.specs.row_check.Faults.{IsIntervalOf, start_sum};

use crate::row_check::reading::Reading;
use crate::row_check::sums::start_sums;
use ground_model::GroundProblem;

/// The means over the initial states of lower values, rounded down, and of upper ones, rounded up, in
/// micro-units.
#[derive(Clone, Copy, Drop, Debug, PartialEq, Eq)]
pub struct Means {
    /// The floor of the mean of the lower values.
    pub lower: u128,
    /// The ceiling of the mean of the upper values.
    pub upper: u128,
}

/// The means over the initial states.
pub fn read_means<R: Reading>(problem: &GroundProblem, reading: &R) -> Means
    ensures lower { result.lower
        ≡ floor (start_sum problem.now (R.low reading.now)) problem.now.start_den }
    ensures upper { result.upper
        ≡ ceiling (start_sum problem.now (R.high reading.now)) problem.now.start_den }
{
    let den = u128::from(problem.start_den());
    let sums = start_sums(problem, reading);
    Means {
        lower: sums.lower / den,
        upper: sums.upper.div_ceil(den),
    }
}

/// Whether an interval is that of the initial states: the floor of the mean of the lower values, and the
/// ceiling of the mean of the upper ones.
pub fn is_interval<R: Reading>(problem: &GroundProblem, reading: &R, lower: u64, upper: u64) -> bool
    ensures { IsTrue result
        ↔ IsIntervalOf problem.now (R.low reading.now) (R.high reading.now) lower upper }
{
    let means = read_means(problem, reading);
    means.lower == u128::from(lower) && means.upper == u128::from(upper)
}
