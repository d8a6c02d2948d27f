//! What the rows of a draft say of a state.

ghost use Rattle.std.specs.Prelude.{◌≡◌, IfOk, OnOk, length};
ghost use Rattle.certificate_check.specs.Claims.{low_in, numbered};
ghost use Rattle.ground_model.specs.Packed.{words_for};
ghost use Rattle.cert_merge.specs.Drafts.{drafted, AreKnown, IsFormed, IsReadAs, raw_high};

use crate::draft::Draft;
use crate::row_state::{Room, write_state};
use ground_model::{GroundProblem, State};
use ground_step::is_goal;
use std::alloc::AllocError;

/// Bounds on the value of a state.
#[derive(Clone, Copy)]
pub(crate) struct Bounds {
    pub lower: u64,
    pub upper: u64,
}

/// What the rows say of a state; goals are not told apart.
fn bounds_at(
    problem: &GroundProblem,
    draft: &Draft,
    numbers: &[Option<u32>],
    state: &State,
    room: &mut Room,
) -> Result<Bounds, AllocError>
    requires form { IsFormed problem.now draft.now }
    requires known { AreKnown problem.now draft.now }
    requires numbers { numbers.now ≡ numbered problem.now.atoms draft.now.atoms }
    requires room { length room.old.state ≡ words_for (length problem.now.atoms) }
    ensures lower { IfOk result
        (λ b. b.lower ≡ low_in problem.now (drafted problem.now.penalty 0 0 draft.now) state.now) }
    ensures upper { IfOk result (λ b. b.upper ≡ raw_high problem.now draft.now state.now) }
    ensures room { OnOk result
        (length room.new.state ≡ words_for (length problem.now.atoms)) }
{
    for place in 0..draft.rows.len() {
        let row = draft.rows.row(place);
        write_state(numbers, row.atoms, room)?;
        if room.state == *state {
            return Ok(Bounds {
                lower: row.lower,
                upper: row.upper,
            });
        }
    }
    Ok(Bounds {
        lower: 0,
        upper: problem.penalty(),
    })
}

/// The lower and the upper value of a state.
pub(crate) fn reading_at(
    problem: &GroundProblem,
    draft: &Draft,
    numbers: &[Option<u32>],
    state: &State,
    room: &mut Room,
) -> Result<Bounds, AllocError>
    requires form { IsFormed problem.now draft.now }
    requires known { AreKnown problem.now draft.now }
    requires numbers { numbers.now ≡ numbered problem.now.atoms draft.now.atoms }
    requires room { length room.old.state ≡ words_for (length problem.now.atoms) }
    ensures read { IfOk result (IsReadAs problem.now draft.now state.now) }
    ensures room { OnOk result
        (length room.new.state ≡ words_for (length problem.now.atoms)) }
{
    let bounds = bounds_at(problem, draft, numbers, state, room)?;
    if is_goal(problem, state) {
        return Ok(Bounds {
            lower: bounds.lower,
            upper: 0,
        });
    }
    Ok(bounds)
}
