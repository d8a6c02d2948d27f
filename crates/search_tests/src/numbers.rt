//! That no interval is read wider than before while workers narrow it.

ghost use Rattle.std.specs.Prelude.{◌≤◌};
ghost use Rattle.word_table.specs.view.Views.{knows};
ghost use Rattle.word_table.specs.Seen.{IsOf};
ghost use Rattle.trial_workers.specs.Crews.{IsCrewOf, IsNear};
ghost use Rattle.plan_search.specs.solver.Opened.{AreSizes};

use crate::problems::{SLOW_COIN, problem_of};
use crate::table::steps::find_id;
use bound_words::interval;
use brtdp_trial::Ends;
use ground_model::{GroundProblem, State};
use plan_search::{Effort, Opening, Sizes, make_crew, open};
use shelf_io::FreeGate;
use std::alloc::{AllocError, Global};
use std::test::Fail;
use std::thread::{Threads, join_mut};
use trial_workers::{Crew, Extent, Solved, solve_words};
use word_table::{Pass, Words, split};

/// Four workers.
const SIZES: Sizes = Sizes {
    workers: 4,
    states: 65_536,
    sweep_states: 4_096,
};

/// Rounds of 64 trials of one turn, until the interval is as narrow as rounding lets it become.
const EFFORT: Effort = Effort {
    gap: 1_998,
    rounds: 1_000,
    trials: 64,
    depth: 1,
    tau: 10,
    seed: 1,
    ends: Ends::Depth,
};

/// How often an interval is read at most.
const MOST_READINGS: u32 = 10_000_000;

/// Reads an interval until it is as narrow as this, and answers whether none was wider than the one before.
fn only_narrows(words: &Words<'_>, pass: &mut Pass, id: u32, gap: u64) -> bool
    requires here { IsOf words.now pass.old }
    requires known { knows pass.old.view id }
{
    let mut before = interval(words, pass, id);
    for _ in 0..MOST_READINGS {
        if before.upper.saturating_sub(before.lower) <= gap {
            return true;
        }
        let found = interval(words, pass, id);
        if found.lower < before.lower || found.upper > before.upper {
            return false;
        }
        before = found;
    }
    true
}

/// Makes the rounds of a crew, while another pass reads the interval of an id.
fn read_beside<R: Threads + Sync>(
    rt: &R,
    words: &Words<'_>,
    crew: &mut Crew<'_>,
    extent: &Extent,
    effort: &Effort,
    pass: &mut Pass,
    id: u32,
) -> (Solved, bool)
    requires crew { IsCrewOf words.now effort.now.depth crew.old }
    requires deep { 1 ≤ effort.now.depth }
    requires near { IsNear words.now.problem extent.now crew.old }
    requires here { IsOf words.now pass.old }
    requires known { knows pass.old.view id }
{
    join_mut(
        rt,
        &mut || -> Solved
            requires { IsCrewOf words.now effort.now.depth crew.now
                × (1 ≤ effort.now.depth)
                × IsNear words.now.problem extent.now crew.now }
        { solve_words(rt, words, crew, extent, effort, &FreeGate) },
        &mut || -> bool
            requires { IsOf words.now pass.now × knows pass.now.view id }
        { only_narrows(words, pass, id, effort.gap) },
    )
}

/// Solves a problem by a crew, while another pass reads the interval of this state.
fn solve_and_read<R: Threads + Sync>(
    rt: &R,
    alloc: Global,
    problem: &GroundProblem,
    state: &State,
    sizes: &Sizes,
    effort: &Effort,
) -> Result<Option<(Solved, bool)>, AllocError>
    requires sizes { AreSizes sizes.now }
    requires deep { 1 ≤ effort.now.depth }
{
    let Opening {
        words,
        mut pass,
        extent,
        index,
        near,
    } = open(alloc, problem, sizes)?;
    let mut reading = split(&words, &mut pass, 0);
    let Ok(mut crew) = make_crew(
        alloc,
        &words,
        pass,
        &index,
        &near,
        sizes.workers,
        effort.depth,
    ) else {
        drop(near);
        drop(index);
        drop(reading);
        drop(words);
        return Err(AllocError);
    };
    drop(near);
    drop(index);
    let found = match find_id(&words, &mut reading, state) {
        None => None,
        Some(id) => {
            let read = read_beside(rt, &words, &mut crew, &extent, effort, &mut reading, id);
            Some(read)
        }
    };
    drop(crew);
    drop(reading);
    drop(words);
    Ok(found)
}

/// Solves a problem by four workers, while another pass reads the interval of the first start.
fn read_start<R: Threads + Sync>(
    rt: &R,
    alloc: Global,
    problem: &GroundProblem,
) -> Result<Option<(Solved, bool)>, AllocError> {
    match problem.starts().first() {
        None => Ok(None),
        Some(start) => solve_and_read(rt, alloc, problem, &start.state, &SIZES, &EFFORT),
    }
}

/// Four workers make trials of one turn, so that all narrow the numbers of the one state that is no goal.
#[test]
fn numbers_never_widen(rt: HostRuntime) -> Result<(), Fail> {
    let alloc = rt.alloc();
    let problem = problem_of(alloc, SLOW_COIN)?;
    let found = read_start(&rt, alloc, &problem);
    drop(problem);
    let Some((solved, narrows)) = found? else {
        return Err(Fail::new("the start is not found"));
    };
    assert!(rt; narrows);
    // a thousandth of a distance below 1,000 micro-units from 1,000 units is rounded away
    assert_eq!(rt; (solved.lower, solved.upper), (999_999_001, 1_000_000_999));
    Ok(())
}
