//! The interval over the starts.

ghost use Rattle.std.specs.Prelude.{◌≡◌, IfOk};
ghost use Rattle.certificate_check.specs.Claims.{low_in, high_in};
ghost use Rattle.ground_model.specs.Steps.{ground_starts};
ghost use Rattle.decision_process.specs.Process.{at_starts};
ghost use Rattle.cert_merge.specs.Drafts.{drafted, AreKnown, IsEndsOf, IsFormed};

use crate::draft::Draft;
use crate::reading::reading_at;
use crate::row_state::{Room, numbers_of};
use ground_model::GroundProblem;
use std::alloc::{AllocError, Global};

/// The mean of the lower values over the starts, rounded down, and that of the upper values, rounded up.
#[derive(Clone, Copy)]
pub(crate) struct Ends {
    pub lower: u64,
    pub upper: u64,
}

/// A sum of lower and one of upper values, in micro-units times the denominator of the weights.
#[derive(Clone, Copy)]
struct Sums {
    lower: u128,
    upper: u128,
}

/// The sums of the weights of the starts times their values.
fn add_up(alloc: Global, problem: &GroundProblem, draft: &Draft) -> Result<Sums, AllocError>
    requires form { IsFormed problem.now draft.now }
    requires known { AreKnown problem.now draft.now }
    ensures lower { IfOk result (λ sums. sums.lower
        ≡ at_starts (low_in problem.now (drafted problem.now.penalty 0 0 draft.now))
        (ground_starts problem.now)) }
    ensures upper { IfOk result (λ sums. sums.upper
        ≡ at_starts (high_in problem.now (drafted problem.now.penalty 0 0 draft.now))
        (ground_starts problem.now)) }
{
    let numbers = numbers_of(alloc, problem, draft.atoms.as_slice())?;
    let mut room = Room::new(alloc, problem)?;
    let mut lower: u128 = 0;
    let mut upper: u128 = 0;
    for start in problem.starts() {
        let weight = u128::from(start.weight);
        let bounds = reading_at(problem, draft, &numbers, &start.state, &mut room)?;
        lower += weight * u128::from(bounds.lower);
        upper += weight * u128::from(bounds.upper);
    }
    Ok(Sums { lower, upper })
}

/// The interval over the starts of the rows of a draft.
pub(crate) fn ends_of(
    alloc: Global,
    problem: &GroundProblem,
    draft: &Draft,
) -> Result<Ends, AllocError>
    requires form { IsFormed problem.now draft.now }
    requires known { AreKnown problem.now draft.now }
    ensures { IfOk result
        (IsEndsOf problem.now (drafted problem.now.penalty 0 0 draft.now)) }
{
    let sums = add_up(alloc, problem, draft)?;
    let den = u128::from(problem.start_den());
    Ok(Ends {
        lower: (sums.lower / den) as u64,
        upper: sums.upper.div_ceil(den) as u64,
    })
}
