//! The mean over the starts of what is known from below.

ghost use Rattle.std.specs.Prelude.{◌≡◌, ◌≤◌, ◌<◌, ◌+◌, ◌*◌, ◌^◌, max};
ghost use Rattle.decision_process.specs.under.Under.{AreBelowPlans};
ghost use Rattle.ground_model.specs.Steps.{ground_process, ground_starts};
ghost use Rattle.bound_core.specs.ends.Closing.{IsClosing, HasStartsFirst};
ghost use Rattle.bound_core.specs.ends.Ends.{closing_low};
ghost use Rattle.lower_seed.specs.Means.{IsUnderSum, IsUnderMean};

use crate::rule::Rule;
use crate::seed::Seed;
use bound_core::{Image, ImageRow};
use ground_model::GroundProblem;

/// A sum with a start more, which has this weight: the greater of its lower bound and of its value is added.
fn with_start(sum: u128, weight: u64, lower: u64, value: u64) -> u128
    requires { sum + weight * max lower value < 2 ^ 128 }
    ensures { result ≡ sum + weight * max lower value }
{
    sum + u128::from(weight) * u128::from(lower.max(value))
}

/// The sum over the starts, whose rows stand first, of the greater of their lower bounds and of what the seed answers.
fn add_up<R: Rule>(problem: &GroundProblem, rows: &[ImageRow], seed: &Seed<'_, R>) -> u128
    requires closing { IsClosing problem.now rows.now }
    requires starts { HasStartsFirst problem.now rows.now }
    requires problem { seed.now.problem.now ≡ problem.now }
    ensures { IsUnderSum (R.answers seed.now.rule) problem.now
        rows.now problem.now.starts result }
{
    let mut sum = 0u128;
    for (place, start) in problem.starts().iter().enumerate() {
        let value = seed.value(&start.state);
        sum = with_start(sum, start.weight, rows[place].lower, value);
    }
    sum
}

/// The mean over the starts of the greater of their lower bounds when a search has ended and of what the seed answers
/// for them, rounded down, in micro-units. The starts have the first rows of the image, in their order.
pub fn under_of<R: Rule>(problem: &GroundProblem, image: &Image, seed: &Seed<'_, R>) -> u64
    requires closing { IsClosing problem.now image.now.rows }
    requires starts { HasStartsFirst problem.now image.now.rows }
    requires problem { seed.now.problem.now ≡ problem.now }
    ensures mean { IsUnderMean (R.answers seed.now.rule) problem.now image.now.rows result }
    ensures higher { closing_low problem.now image.now.rows ≤ result }
    ensures within_quit { result ≤ problem.now.penalty }
    ensures plans { AreBelowPlans (ground_process problem.now)
        (ground_starts problem.now) problem.now.start_den result }
{
    let sum = add_up(problem, image.rows.as_slice(), seed);
    (sum / u128::from(problem.start_den())) as u64
}
