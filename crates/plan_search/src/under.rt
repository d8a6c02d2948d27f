//! What is known of the starts from below.

ghost use Rattle.bound_core.specs.ends.Closing.{IsClosing, HasStartsFirst, closing_rows};
ghost use Rattle.lower_seed.specs.Rules.{BoundsFromBelow};
ghost use Rattle.lower_seed.specs.Means.{IsUnderMean};
ghost use Rattle.plan_request.specs.declared.lower.Lower.TheVariants as lowers;
ghost use Rattle.plan_search.specs.Under.{IsUnderBy, IsTold};

use bound_core::Image;
use ground_model::{GroundProblem, State};
use lower_seed::{Rule, cost_value, keep, least_choice};
use plan_request::Lower;
use relaxed_seed::{potential_laws, relaxed_value};

/// The mean over the starts of what is known from below by their rows or by a rule.
fn under_by<R: Rule>(problem: &GroundProblem, image: &Image, rule: R) -> u64
    requires closing { IsClosing problem.now image.now.rows }
    requires starts { HasStartsFirst problem.now image.now.rows }
    requires bounds { BoundsFromBelow R.takes R.answers problem.now rule }
    ensures mean { IsUnderMean (R.answers rule) problem.now image.now.rows result }
{
    let seed = keep(problem, rule);
    lower_seed::under_of(problem, image, &seed)
}

/// The same by the least cost of a choice.
fn under_cost(problem: &GroundProblem, image: &Image) -> u64
    requires closing { IsClosing problem.now image.now.rows }
    requires starts { HasStartsFirst problem.now image.now.rows }
    ensures { IsUnderBy lowers.Cost problem.now (closing_rows image.now.rows) result }
{
    let least = least_choice(problem);
    under_by(problem, image, |state: &State| {
        cost_value(problem, least, state)
    })
}

/// The same by the greatest relaxed cost.
fn under_relaxed(problem: &GroundProblem, image: &Image) -> u64
    requires closing { IsClosing problem.now image.now.rows }
    requires starts { HasStartsFirst problem.now image.now.rows }
    ensures { IsUnderBy lowers.Relaxed problem.now (closing_rows image.now.rows) result }
{
    potential_laws();
    // A part that is read shows that the problem has its form, so that each state has such a cost.
    let _penalty = problem.penalty();
    under_by(problem, image, |state: &State| {
        relaxed_value(problem, state)
    })
}

/// What is told of the starts from below, if anything is asked for.
pub(crate) fn under_told(problem: &GroundProblem, image: &Image, lower: Lower) -> Option<u64>
    requires closing { IsClosing problem.now image.now.rows }
    requires starts { HasStartsFirst problem.now image.now.rows }
    ensures { IsTold lower problem.now (closing_rows image.now.rows) result }
{
    match lower {
        Lower::None => None,
        Lower::Cost => Some(under_cost(problem, image)),
        Lower::Relaxed => Some(under_relaxed(problem, image)),
    }
}
