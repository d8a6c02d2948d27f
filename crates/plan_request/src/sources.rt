//! The texts of a task and the terms on which it is read.

ghost use Rattle.std.specs.Prelude.{◌≡◌, option_map};
ghost use Rattle.plan_request.specs.Asked.{sources_of, penalty_of};
ghost use Rattle.plan_request.specs.Shown.{shown_sources, given_by};

use crate::numbers::{amount, amount_or};
use crate::words::Parsed;

/// The texts of a task, by their names on the shelf, and the terms on which it is read.
#[derive(Clone, Copy, Debug)]
pub struct Sources<'a> {
    /// The first text.
    pub domain: &'a str,
    /// The second text, where the problem does not stand in the first.
    pub problem: Option<&'a str>,
    /// The penalty of giving up in micro-units, from 1 to 10^14. None takes the goal reward.
    pub penalty: Option<u64>,
    /// What each step costs besides its effect, in micro-units, at most 10^12.
    pub step_cost: u64,
}

/// The penalty that is given, if any.
#[tactic(auto, unfolding(crate::specs::Asked::penalty_of))]
fn penalty_of(given: Option<&str>) -> Option<Option<u64>>
    ensures { result ≡ penalty_of (option_map (λ s. s.now) given.entry) }
{
    match given {
        None => Some(None),
        Some(digits) => Some(Some(amount(digits, 1, 100_000_000_000_000)?)),
    }
}

/// The texts and terms of a command that reads a task.
#[tactic(auto, unfolding(crate::specs::Asked::sources_of))]
pub(crate) fn sources_of<'a>(parsed: &Parsed<'a>) -> Option<Sources<'a>>
    ensures { option_map shown_sources result ≡ sources_of (given_by parsed.now) }
{
    let domain = parsed.value("DOMAIN")?;
    let problem = parsed.value("problem");
    let penalty = penalty_of(parsed.value("penalty"))?;
    let step_cost = amount_or(0, parsed.value("step-cost"), 0, 1_000_000_000_000)?;
    Some(Sources {
        domain,
        problem,
        penalty,
        step_cost,
    })
}
