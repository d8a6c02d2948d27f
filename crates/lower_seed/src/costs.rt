//! The rule that each step costs something.

ghost use Rattle.std.specs.Prelude.{◌≡◌, length, min};
ghost use Rattle.decision_process.specs.Process.{min_with};
ghost use Rattle.decision_process.specs.under.Under.{IsUnder};
ghost use Rattle.ground_model.specs.Steps.{ground_process};
ghost use Rattle.bound_core.specs.Core.{width};
ghost use Rattle.lower_seed.specs.Costs.{costs_of, least_choice, cost_value};

use ground_model::{GroundAction, GroundProblem, MOST_CHOICE_COST, State};
use ground_step::is_goal;

/// The smaller of two costs.
fn smaller(cost: u64, other: u64) -> u64
    ensures { result ≡ min cost other }
{
    cost.min(other)
}

/// The least of a cost and those of an action's choices.
fn least_with(least: u64, action: &GroundAction) -> u64
    ensures { result ≡ min_with least (λ cost. cost) (costs_of action.now) }
{
    let mut found = least;
    for choice in action.choices.as_slice() {
        found = smaller(choice.cost, found);
    }
    found
}

/// The least cost of a choice of an action, without its guarded parts, in micro-units; the penalty where there is
/// no action.
pub fn least_choice(problem: &GroundProblem) -> u64
    ensures { result ≡ least_choice problem.now }
{
    if problem.actions().is_empty() {
        return problem.penalty();
    }
    let mut least = MOST_CHOICE_COST;
    for action in problem.actions() {
        least = least_with(least, action);
    }
    least
}

/// What is known of each state by the least cost of a choice, in micro-units: 0 at a goal, else the smaller of the
/// penalty and that cost.
pub fn cost_value(problem: &GroundProblem, least: u64, state: &State) -> u64
    requires least { least ≡ least_choice problem.now }
    requires length { length state.now ≡ width problem.now }
    ensures value { result ≡ cost_value problem.now state.now }
    ensures under { IsUnder (ground_process problem.now) result state.now }
{
    let quit = problem.penalty();
    if is_goal(problem, state) {
        0
    } else {
        smaller(quit, least)
    }
}
