//! What the tests of a row compare its values with.

ghost use Rattle.std.specs.Prelude.{◌≡◌, length, false};
ghost use Rattle.ground_model.specs.Invariant.{IsGroundProblem};
ghost use Rattle.ground_model.specs.Steps.{ground_process};
ghost use Rattle.certificate_check.specs.row_check.Faults.{IsReadAt, HasRoom};
ghost use Rattle.certificate_check.specs.row_check.Sides.{HaveSides};

use crate::row_check::act::Act;
use crate::row_check::bounds::Bounds;
use crate::row_check::claim::Claim;
use crate::row_check::reading::Reading;
use crate::row_check::scratch::Scratch;
use crate::row_check::sums::action_sums;
use applicable_actions::OpenActions;
use ground_model::{GroundProblem, State};
use ground_step::holds;

/// What the tests of a row compare its values with, in micro-units.
#[derive(Clone, Copy, Drop, Debug, PartialEq, Eq)]
pub struct Sides {
    /// The greatest lower value that follows from those of the next states.
    pub greatest_lower: u64,
    /// The least upper value that follows under the row's act from those of the next states; None where the
    /// act is not right.
    pub least_upper: Option<u128>,
}

/// The sides of a row whose state is no goal, by one pass over its open actions. A quotient is formed only
/// where it becomes the least so far.
fn sides_off_goals<R: Reading>(
    problem: &GroundProblem,
    reading: &R,
    state: &State,
    claim: Claim,
    codes: &[u16],
    next: &mut State,
) -> Sides
    requires off_goals { (ground_process problem.now).goal state.now ≡ false }
    requires own_lower { claim.lower ≡ R.low reading.now state.now }
    requires own_upper { claim.upper ≡ R.high reading.now state.now }
    requires codes { codes.now ≡ (ground_process problem.now).choices state.now }
    requires fits { length next.old ≡ length state.now }
    ensures sides { HaveSides problem.now (R.low reading.now) (R.high reading.now)
        state.now claim.act result }
    ensures fits { length next.new ≡ length state.now }
{
    let mut sides = Sides {
        greatest_lower: problem.penalty(),
        least_upper: claim.act.quits(problem.penalty()),
    };
    let own = Bounds {
        lower: claim.lower,
        upper: claim.upper,
    };
    for code in codes {
        let action = &problem.actions()[*code as usize];
        let den = u128::from(action.den);
        let sums = action_sums(action, reading, state, own, next, problem.atoms().len());
        if sums.lower < u128::from(sides.greatest_lower) * den {
            sides.greatest_lower = (sums.lower / den) as u64;
        }
        if claim.act.takes(*code) {
            sides.least_upper = Some(sums.upper.div_ceil(den));
        }
    }
    sides
}

/// The sides of a row. A state that is no goal has to be read as its row claims, so that a step back to it
/// needs no reading.
pub fn sides_at<R: Reading>(
    index: &OpenActions<'_>,
    reading: &R,
    state: &State,
    claim: Claim,
    scratch: &mut Scratch,
) -> Sides
    requires read { IsReadAt index.now (R.low reading.now) (R.high reading.now) state.now claim }
    requires room { HasRoom index.now state.now scratch.old }
    ensures valid { IsGroundProblem index.now }
    ensures sides { HaveSides index.now (R.low reading.now) (R.high reading.now)
        state.now claim.act result }
    ensures room { HasRoom index.now state.now scratch.new }
{
    let problem = index.problem();
    if holds(problem.goal(), state) {
        return Sides {
            greatest_lower: 0,
            least_upper: claim.act.ends(),
        };
    }
    index.fill(state, &mut scratch.codes);
    sides_off_goals(
        problem,
        reading,
        state,
        claim,
        scratch.codes.as_slice(),
        &mut scratch.next,
    )
}
