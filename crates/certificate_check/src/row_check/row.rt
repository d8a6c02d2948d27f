//! The test of a row.

ghost use Rattle.certificate_check.specs.row_check.Faults.{IsFault, IsReadAt, HasRoom};

use crate::row_check::claim::Claim;
use crate::row_check::fault::Fault;
use crate::row_check::reading::Reading;
use crate::row_check::scratch::Scratch;
use crate::row_check::sides::sides_at;
use applicable_actions::OpenActions;
use ground_model::State;

/// The first of the conditions on a row that fails, in the order of the faults. A state that is no goal
/// has to be read as its row claims, so that a step back to it needs no reading.
pub fn row_fault<R: Reading>(
    index: &OpenActions<'_>,
    reading: &R,
    state: &State,
    claim: Claim,
    scratch: &mut Scratch,
) -> Option<Fault>
    requires read { IsReadAt index.now (R.low reading.now) (R.high reading.now) state.now claim }
    requires room { HasRoom index.now state.now scratch.old }
    ensures fault { IsFault index.now (R.low reading.now) (R.high reading.now)
        state.now claim result }
    ensures room { HasRoom index.now state.now scratch.new }
{
    let sides = sides_at(index, reading, state, claim, scratch);
    let Some(least) = sides.least_upper else {
        return Some(Fault::Act);
    };
    if claim.lower > sides.greatest_lower {
        return Some(Fault::Lower);
    }
    if !claim.has_upper_within(least) {
        return Some(Fault::Upper);
    }
    None
}
