//! What the tests of a certificate compare with what it says.

ghost use Rattle.std.specs.Prelude.{◌≡◌, ◌<◌, length, IfOk};
ghost use Rattle.certificate_check.specs.Pass.{HasRoomFor};
ghost use Rattle.certificate_check.specs.Sides.{AreSidesIn, AreMeans};

use crate::ground_rows::GroundRows;
use crate::packing::copy_words;
use crate::row_check::{Act, Claim, Means, Reading, Sides, read_means, sides_at};
use crate::row_table::RowTable;
use crate::rows::Room;
use applicable_actions::OpenActions;
use certificate::Certificate;
use ground_model::GroundProblem;
use std::alloc::{AllocError, Global};

/// The sides of the row in this place.
fn sides_in(index: &OpenActions<'_>, table: &RowTable<'_>, place: usize, room: &mut Room) -> Sides
    requires problem { index.now ≡ table.now.problem }
    requires place { place < length table.now.certificate.rows }
    requires room { HasRoomFor table.now.problem room.old }
    ensures { AreSidesIn table.now.problem table.now.certificate place result }
{
    let rows = table.rows();
    let act = rows.act(rows.certificate().rows().row(place).act);
    copy_words(rows.state(place), &mut room.state);
    let own = table.read(&room.state);
    let claim = Claim {
        lower: own.lower,
        upper: own.upper,
        act: act.unwrap_or(Act::GiveUp),
    };
    let mut sides = sides_at(index, table, &room.state, claim, &mut room.scratch);
    if act.is_none() {
        sides.least_upper = None;
    }
    sides
}

/// What the tests of the row in this place compare its values with, whatever the test of other rows says.
/// It is refused for want of memory alone.
pub fn row_sides(
    alloc: Global,
    problem: &GroundProblem,
    certificate: &Certificate,
    place: usize,
) -> Result<Sides, AllocError>
    requires { place < length certificate.now.rows }
    ensures { IfOk result (AreSidesIn problem.now certificate.now place) }
{
    let rows = GroundRows::new(alloc, problem, certificate)?;
    let table = RowTable::new(alloc, &rows)?;
    let index = OpenActions::new(alloc, problem)?;
    let mut room = Room::new(alloc, problem)?;
    Ok(sides_in(&index, &table, place, &mut room))
}

/// What the test of the interval compares its ends with. It is refused for want of memory alone.
pub fn start_means(
    alloc: Global,
    problem: &GroundProblem,
    certificate: &Certificate,
) -> Result<Means, AllocError>
    ensures { IfOk result (AreMeans problem.now certificate.now) }
{
    let rows = GroundRows::new(alloc, problem, certificate)?;
    let table = RowTable::new(alloc, &rows)?;
    Ok(read_means(problem, &table))
}
