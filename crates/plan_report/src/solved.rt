//! The report of a search that has ended.

ghost use Rattle.std.specs.Prelude.{◌≡◌, ◌++◌, ◌*◌, ◌<◌, ◌^◌, length, IfOk, OnOk};
ghost use Rattle.std.specs.List.{flat_map};
ghost use Rattle.bound_core.specs.ends.Closing.{IsClosing, HasStartsFirst, act_in, closing_rows};
ghost use Rattle.plan_report.specs.Solved.{ending_line, action_text, solved_line};
ghost use Rattle.plan_report.specs.Solved.{solve_text, solved_of};
ghost use Rattle.plan_report.specs.StartRows.{row_act_text, row_line};

use crate::atoms::push_true_atoms;
use crate::ending::{Ending, ending_of};
use crate::pieces::{push_counted, push_fraction, push_interval, push_units};
use bound_core::{AT_GOAL, GIVE_UP, Image, ImageRow, ends_of};
use fixed_round::UpperWord;
use ground_model::{GroundAction, GroundProblem, Start};
use plain_list::Bytes;
use std::alloc::{AllocError, Global};

/// Appends the first line.
fn push_ending(out: &mut Vec<u8>, ending: Ending) -> Result<(), AllocError>
    ensures { OnOk result (out.new.items ≡ out.old.items ++ ending_line ending) }
{
    match ending {
        Ending::Converged => out.extend_from_slice(b"converged\n"),
        Ending::Budget => out.extend_from_slice(b"stopped budget\n"),
        Ending::TableFull => out.extend_from_slice(b"stopped table-full\n"),
    }
}

/// Appends the name of an action.
fn push_action(out: &mut Vec<u8>, actions: &[GroundAction], code: u16) -> Result<(), AllocError>
    ensures { OnOk result (out.new.items ≡ out.old.items ++ action_text actions.now code) }
{
    match actions.get(usize::from(code)) {
        None => Ok(()),
        Some(action) => out.extend_from_slice(action.name.as_slice()),
    }
}

/// Appends what an upper word says to do.
fn push_act(out: &mut Vec<u8>, actions: &[GroundAction], upper: UpperWord) -> Result<(), AllocError>
    ensures { OnOk result (out.new.items
        ≡ out.old.items ++ row_act_text actions.now (act_in upper)) }
{
    match upper.code() {
        AT_GOAL => out.extend_from_slice(b"goal"),
        GIVE_UP => out.extend_from_slice(b"give-up"),
        code => push_action(out, actions, code),
    }
}

/// Appends the line of a start, by the row of its state.
fn push_start(
    out: &mut Vec<u8>,
    problem: &GroundProblem,
    start: &Start,
    row: &ImageRow,
) -> Result<(), AllocError>
    requires { 64 * length start.now.state < 2 ^ 32 }
    ensures { OnOk result (out.new.items
        ≡ out.old.items ++ row_line problem.now start.now row.now) }
{
    out.extend_from_slice(b"start ")?;
    push_fraction(out, start.weight, problem.start_den())?;
    push_units(out, b" ", row.lower)?;
    push_units(out, b" ", row.upper.value())?;
    out.push(b' ')?;
    push_act(out, problem.actions(), row.upper)?;
    out.extend_from_slice(b" :")?;
    push_true_atoms(out, problem.atoms(), &start.state)?;
    out.push(b'\n')?;
    Ok(())
}

/// Appends the lines of the starts, whose rows stand first.
fn push_starts(
    out: &mut Vec<u8>,
    problem: &GroundProblem,
    rows: &[ImageRow],
) -> Result<(), AllocError>
    requires closing { IsClosing problem.now rows.now }
    requires starts { HasStartsFirst problem.now rows.now }
    ensures { OnOk result (out.new.items ≡ out.old.items
        ++ flat_map (solved_line problem.now (closing_rows rows.now)) problem.now.starts) }
{
    for (place, start) in problem.starts().iter().enumerate() {
        push_start(out, problem, start, &rows[place])?;
    }
    Ok(())
}

/// The report of a search that made so many rounds and found these states: how it ended, its interval
/// over the starts, and each start with what is known of it. `ids` are all that there were, and the gap,
/// in micro-units, is the width that was asked for. It is refused for want of memory alone.
pub fn solve_report(
    alloc: Global,
    problem: &GroundProblem,
    image: &Image,
    ids: u32,
    gap: u64,
    rounds: u32,
) -> Result<Bytes, AllocError>
    requires closing { IsClosing problem.now image.now.rows }
    requires starts { HasStartsFirst problem.now image.now.rows }
    ensures { let s = solved_of problem.now image.now.rows image.now.given_out ids gap rounds in
        IfOk result (λ report. report ≡ solve_text problem.now (closing_rows image.now.rows) s) }
{
    let rows = image.rows.as_slice();
    let ends = ends_of(problem, rows);
    let mut out = Vec::new(alloc);
    push_ending(&mut out, ending_of(gap, ends, image.given_out, ids))?;
    push_interval(&mut out, ends.lower, ends.upper)?;
    push_counted(&mut out, b"states ", rows.len() as u64)?;
    push_counted(&mut out, b"rounds ", u64::from(rounds))?;
    push_starts(&mut out, problem, rows)?;
    Ok(Bytes::from_vec(out))
}
