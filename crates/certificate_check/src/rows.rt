//! The pass over the rows.

ghost use Rattle.std.specs.Prelude.{◌≡◌, ◌<◌, length, IfOk};
ghost use Rattle.certificate_check.specs.Pass.{HasRoomFor, TellsOfRow, TellsOfRows};
ghost use Rattle.certificate_check.specs.Verdicts.{verdict_of};

use crate::packing::{blank, copy_words, state_width};
use crate::row_check::{Claim, Fault, Scratch, row_fault};
use crate::row_table::RowTable;
use crate::verdict::Verdict;
use applicable_actions::{OpenActions, OpenCodes};
use ground_model::{GroundProblem, State};
use std::alloc::{AllocError, Global};

/// Room for the pass: the state of a row, and what its test needs.
#[derive(Drop)]
pub(crate) struct Room {
    pub state: State,
    pub scratch: Scratch,
}

impl Room {
    /// Room for the states and actions of a problem. It is refused for want of memory alone.
    pub(crate) fn new(alloc: Global, problem: &GroundProblem) -> Result<Self, AllocError>
        ensures { IfOk result (HasRoomFor problem.now) }
    {
        let width = state_width(problem);
        let state = blank(alloc, width)?;
        let next = blank(alloc, width)?;
        let codes = OpenCodes::new(alloc, problem)?;
        Ok(Room {
            state,
            scratch: Scratch { next, codes },
        })
    }
}

/// What a fault says of the row with this number.
fn verdict_of(fault: Fault, row: u32) -> Verdict
    ensures { result ≡ verdict_of row fault }
{
    match fault {
        Fault::Act => Verdict::Act { row },
        Fault::Lower => Verdict::Lower { row },
        Fault::Upper => Verdict::Upper { row },
    }
}

/// What is wrong with the row in this place, if anything.
fn row_verdict(
    index: &OpenActions<'_>,
    table: &RowTable<'_>,
    place: usize,
    room: &mut Room,
) -> Option<Verdict>
    requires problem { index.now ≡ table.now.problem }
    requires place { place < length table.now.certificate.rows }
    requires room { HasRoomFor table.now.problem room.old }
    ensures verdict { TellsOfRow table.now place result }
    ensures room { HasRoomFor table.now.problem room.new }
{
    let rows = table.rows();
    let claimed = rows.certificate().rows().row(place);
    let row = place as u32 + 1;
    if !rows.knows(place) {
        return Some(Verdict::UnknownAtom { row });
    }
    let Some(act) = rows.act(claimed.act) else {
        return Some(Verdict::Act { row });
    };
    copy_words(rows.state(place), &mut room.state);
    let claim = Claim {
        lower: claimed.lower,
        upper: claimed.upper,
        act,
    };
    let fault = row_fault(index, table, &room.state, claim, &mut room.scratch)?;
    Some(verdict_of(fault, row))
}

/// What is wrong with the first row that is not right, if there is one.
pub(crate) fn rows_verdict(
    index: &OpenActions<'_>,
    table: &RowTable<'_>,
    room: &mut Room,
) -> Option<Verdict>
    requires problem { index.now ≡ table.now.problem }
    requires room { HasRoomFor table.now.problem room.old }
    ensures { TellsOfRows table.now result }
{
    for place in 0..table.rows().certificate().rows().len() {
        if let Some(verdict) = row_verdict(index, table, place, room) {
            return Some(verdict);
        }
    }
    None
}
