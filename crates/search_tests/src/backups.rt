//! Backups one by one, against numbers that were computed by hand.

ghost use Rattle.std.specs.Prelude.{◌<◌, IfOk};
ghost use Rattle.word_table.specs.view.Views.{knows};
ghost use Rattle.word_table.specs.Seen.{IsOf};
ghost use Rattle.bellman_backup.specs.Backups.{Keeps};
ghost use Rattle.bellman_backup.specs.Scratches.{IsScratchOf};

use crate::problems::{HAUL, problem_of};
use crate::table::steps::find_id;
use bellman_backup::{Scratch, backup, narrow};
use bound_words::{Interval, interval};
use brtdp_trial::{AT_GOAL, Backed, GIVE_UP};
use ground_model::{GroundProblem, State};
use plan_search::{Opening, Sizes, open};
use sample_problems::{state_of, tire};
use std::alloc::{AllocError, Global};
use std::process::Abort;
use std::test::Fail;
use word_table::{Pass, Words};

/// A backup: the state by the word of its atoms, what is to be answered, and the state's interval afterwards.
#[derive(Clone, Copy)]
struct Row {
    atoms: u64,
    backed: Backed,
    interval: Interval,
}

/// A backup that answers a code, its denominator and its number of choices. The interval afterwards has two
/// numbers in micro-units, and the code of the upper one.
fn at(atoms: u64, answer: (u16, u64, u32), interval: (u64, u64, u16)) -> Row {
    Row {
        atoms,
        backed: Backed {
            code: answer.0,
            den: answer.1,
            count: answer.2,
        },
        interval: Interval {
            lower: interval.0,
            upper: interval.1,
            code: interval.2,
        },
    }
}

/// Backs up an id, and answers the backup where the answer is asked for.
fn update(
    words: &Words<'_>,
    pass: &mut Pass,
    id: u32,
    scratch: &mut Scratch<'_>,
    asked: bool,
) -> Option<Backed>
    requires here { IsOf words.now pass.old }
    requires known { knows pass.old.view id }
    requires right { 0 < pass.old.view.rights }
    requires scratch { IsScratchOf words.now scratch.old }
    ensures keeps { Keeps words.now pass.old pass.new }
    ensures scratch { IsScratchOf words.now scratch.new }
{
    if asked {
        return Some(backup(words, pass, id, scratch));
    }
    narrow(words, pass, id, scratch);
    None
}

/// Backs up a state, and answers the backup, where it is asked for, with the interval afterwards. None where the
/// state has no id.
fn back_up(
    words: &Words<'_>,
    pass: &mut Pass,
    scratch: &mut Scratch<'_>,
    state: &State,
    asked: bool,
) -> Option<(Option<Backed>, Interval)>
    requires here { IsOf words.now pass.old }
    requires right { 0 < pass.old.view.rights }
    requires scratch { IsScratchOf words.now scratch.old }
    ensures here { IsOf words.now pass.new }
    ensures right { 0 < pass.new.view.rights }
    ensures scratch { IsScratchOf words.now scratch.new }
{
    let id = find_id(words, pass, state)?;
    let backed = update(words, pass, id, scratch, asked);
    let found = interval(words, pass, id);
    Some((backed, found))
}

/// Makes the backups in turn.
fn check_backups<R: Abort>(
    rt: &R,
    alloc: Global,
    words: &Words<'_>,
    pass: &mut Pass,
    scratch: &mut Scratch<'_>,
    rows: &[Row],
    asked: bool,
) -> Result<(), AllocError>
    requires here { IsOf words.now pass.old }
    requires right { 0 < pass.old.view.rights }
    requires scratch { IsScratchOf words.now scratch.old }
{
    for row in rows {
        let state = state_of(alloc, &[row.atoms])?;
        let found = back_up(words, pass, scratch, &state, asked);
        let backed = if asked { Some(row.backed) } else { None };
        assert_eq!(rt; found, Some((backed, row.interval)));
    }
    Ok(())
}

/// Makes the backups in turn, where there is a scratch for them.
fn check_with<R: Abort>(
    rt: &R,
    alloc: Global,
    words: &Words<'_>,
    pass: &mut Pass,
    scratch: Result<Scratch<'_>, AllocError>,
    rows: &[Row],
    asked: bool,
) -> Result<(), AllocError>
    requires here { IsOf words.now pass.old }
    requires right { 0 < pass.old.view.rights }
    requires scratch { IfOk scratch (λ s. IsScratchOf words.now s) }
{
    let mut scratch = scratch?;
    check_backups(rt, alloc, words, pass, &mut scratch, rows, asked)
}

/// Makes the backups in turn, over a table in which all states of the problem have ids.
fn check_table<R: Abort>(
    rt: &R,
    alloc: Global,
    problem: &GroundProblem,
    rows: &[Row],
    asked: bool,
) -> Result<(), AllocError> {
    let sizes = Sizes {
        workers: 1,
        states: 65,
        sweep_states: 64,
    };
    let Opening {
        words,
        mut pass,
        extent: _,
        index,
        near,
    } = open(alloc, problem, &sizes)?;
    drop(near);
    let scratch = Scratch::make(alloc, &index, 66, 64, 64);
    drop(index);
    let checked = check_with(rt, alloc, &words, &mut pass, scratch, rows, asked);
    drop(pass);
    drop(words);
    checked
}

/// Makes the backups over two tables: the intervals afterwards are the same where no answer is asked for.
fn check_rows<R: Abort>(
    rt: &R,
    alloc: Global,
    problem: &GroundProblem,
    rows: &[Row],
) -> Result<(), AllocError> {
    check_table(rt, alloc, problem, rows, true)?;
    check_table(rt, alloc, problem, rows, false)
}

/// Atoms: the tire is not flat 1, a spare at the second place 4, the vehicle at the first place 16, at the second 32, at
/// the third 64. Codes: moving to the second place 0, to the third 1, changing the tire at the second place 3.
#[test]
fn of_the_tire(rt: HostRuntime) -> Result<(), Fail> {
    let alloc = rt.alloc();
    let rows = [
        // 1 and half of 0 twice; 1 and half of 100 twice is more than giving up
        at(21, (0, 2, 2), (1_000_000, 100_000_000, GIVE_UP)),
        // moving and changing cost 1 below, and the smaller code is answered
        at(37, (1, 2, 2), (1_000_000, 1_000_000, 1)),
        at(36, (3, 1, 1), (1_000_000, 100_000_000, GIVE_UP)),
        at(33, (1, 2, 2), (1_000_000, 1_000_000, 1)),
        at(36, (3, 1, 1), (2_000_000, 2_000_000, 3)),
        at(37, (1, 2, 2), (1_000_000, 1_000_000, 1)),
        at(21, (0, 2, 2), (2_500_000, 2_500_000, 0)),
        at(64, (AT_GOAL, 1, 0), (0, 0, AT_GOAL)),
        at(69, (AT_GOAL, 1, 0), (0, 0, AT_GOAL)),
    ];
    let problem = tire(alloc)?;
    let checked = check_rows(&rt, alloc, &problem, &rows);
    drop(problem);
    Ok(checked?)
}

/// Atoms: at a 1, at b 2, at c 4. Codes: from a to b 0, from a to c 1, from b to c 2.
#[test]
fn of_the_haul(rt: HostRuntime) -> Result<(), Fail> {
    let alloc = rt.alloc();
    let problem = problem_of(alloc, HAUL)?;
    let rows = [
        // by b it costs 1.5 and 0 to 10, straight on 9.5, which is the less above
        at(1, (0, 1, 1), (1_500_000, 9_500_000, 1)),
        // thirds are rounded down below, and up above: a third of 6 units and 2 * 10 units
        at(2, (2, 3, 2), (2_000_000, 8_666_667, 2)),
        // a third of 6 units and 2 * 2 units
        at(2, (2, 3, 2), (3_333_333, 7_777_778, 2)),
        at(1, (0, 1, 1), (4_833_333, 9_277_778, 0)),
        at(4, (AT_GOAL, 1, 0), (0, 0, AT_GOAL)),
    ];
    let checked = check_rows(&rt, alloc, &problem, &rows);
    drop(problem);
    Ok(checked?)
}
