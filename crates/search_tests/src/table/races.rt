//! Several walkers at once, and what they leave.

ghost use Rattle.std.specs.Prelude.{◌≡◌, ◌<◌, ◌≤◌, ◌+◌, None, length, All, IfOk, OnOk};
ghost use Rattle.word_table.specs.Seen.{IsOf};
ghost use Rattle.search_tests.specs.Steps.{CanWalk};

use crate::problems::{SWITCHES, problem_of};
use crate::table::steps::part;
use crate::table::walks::{SETS, Walker, walk_all};
use ground_model::GroundProblem;
use plan_search::{Opening, Sizes, open};
use sample_problems::state_of;
use std::alloc::{AllocError, Global};
use std::test::Fail;
use std::thread::Threads;
use word_table::{Pass, Words, load_count};

/// What several walkers left.
#[derive(Clone, Copy)]
struct Race {
    /// How many ids are given out.
    given_out: u32,
    /// How many walkers hold a spare.
    spares: usize,
    /// How many states are published.
    rows: usize,
    /// Whether each walker got the same id for each set.
    agree: bool,
    /// Whether no two sets have one id.
    differ: bool,
}

impl Race {
    /// Whether all sets were interned, each once, and no id is given out beside theirs and the spares.
    fn came_out(&self) -> bool {
        if !self.agree || !self.differ {
            return false;
        }
        self.rows == SETS as usize
            && self.given_out as usize == self.rows.saturating_add(self.spares)
    }
}

/// A walker with one of the claim rights of a pass, which knows the id of the empty set.
fn make_walker(
    alloc: Global,
    words: &Words<'_>,
    pass: &mut Pass,
    shift: u32,
) -> Result<Walker, AllocError>
    requires can { CanWalk words.now pass.old }
    requires free { pass.old.view.spare ≡ None }
    ensures walker { IfOk result (λ w. CanWalk words.now w.pass) }
    ensures here { OnOk result (IsOf words.now pass.new) }
    ensures free { OnOk result (pass.new.view.spare ≡ None) }
    ensures rights { OnOk result (pass.new.view.rights + 1 ≡ pass.old.view.rights) }
{
    let mut ids = vec![in alloc; u32::MAX; SETS as usize]?;
    ids[0] = 0;
    let state = state_of(alloc, &[0])?;
    let next = state_of(alloc, &[0])?;
    Ok(Walker {
        pass: part(words, pass),
        shift,
        state,
        next,
        ids,
    })
}

/// So many walkers, each with an order of its own.
fn make_walkers(
    alloc: Global,
    words: &Words<'_>,
    pass: &mut Pass,
    count: u32,
) -> Result<Vec<Walker>, AllocError>
    requires here { IsOf words.now pass.old }
    requires free { pass.old.view.spare ≡ None }
    requires rights { pass.old.view.rights ≡ count }
    ensures count { IfOk result (λ ws. length ws.items ≡ count) }
    ensures can { IfOk result (λ ws. All (λ w. CanWalk words.now w.pass) ws.items) }
    ensures here { OnOk result (IsOf words.now pass.new) }
{
    let mut walkers = Vec::new(alloc);
    for index in 0..count {
        walkers.push(make_walker(alloc, words, pass, index)?)?;
    }
    Ok(walkers)
}

/// Whether each walker has these ids.
fn have_ids(walkers: &[Walker], ids: &[u32]) -> bool {
    for walker in walkers {
        if walker.ids.as_slice() != ids {
            return false;
        }
    }
    true
}

/// Whether no two of the ids are equal.
fn differ(alloc: Global, ids: &[u32]) -> Result<bool, AllocError> {
    let mut seen = vec![in alloc; false; SETS as usize + 64]?;
    for id in ids {
        let place = *id as usize;
        if place >= seen.len() || seen[place] {
            return Ok(false);
        }
        seen[place] = true;
    }
    Ok(true)
}

/// Lets walkers intern all sets of switches at once, on a table whose rows are not read yet.
fn walk_out<R: Threads + Sync>(
    rt: &R,
    alloc: Global,
    words: &Words<'_>,
    pass: &mut Pass,
    walkers: &mut [Walker],
) -> Result<Race, AllocError>
    requires some { 0 < length walkers.old }
    requires can { All (λ w. CanWalk words.now w.pass) walkers.old }
    requires here { IsOf words.now pass.old }
    ensures here { IsOf words.now pass.new }
{
    walk_all(rt, words, walkers);
    let given_out = load_count(words, pass);
    let spares = walkers.iter().filter(|w| w.pass.holds_spare()).count();
    let Some(first) = walkers.first() else {
        return Err(AllocError);
    };
    let ids = first.ids.as_slice();
    let agree = have_ids(walkers, ids);
    let differ = differ(alloc, ids)?;
    Ok(Race {
        given_out,
        spares,
        rows: 0,
        agree,
        differ,
    })
}

/// Lets so many walkers intern all sets of switches at once.
fn race_all<R: Threads + Sync>(
    rt: &R,
    alloc: Global,
    words: &Words<'_>,
    pass: &mut Pass,
    count: u32,
) -> Result<Race, AllocError>
    requires some { 0 < count }
    requires here { IsOf words.now pass.old }
    requires free { pass.old.view.spare ≡ None }
    requires rights { pass.old.view.rights ≡ count }
    ensures here { OnOk result (IsOf words.now pass.new) }
{
    let mut walkers = make_walkers(alloc, words, pass, count)?;
    let raced = walk_out(rt, alloc, words, pass, walkers.as_mut_slice());
    drop(walkers);
    raced
}

/// How many rows a table has.
fn rows_of(alloc: Global, words: Words<'_>, pass: Pass) -> Result<usize, AllocError>
    requires { IsOf words pass }
{
    let Ok(image) = words.close(alloc, pass) else {
        return Err(AllocError);
    };
    Ok(image.rows.as_slice().len())
}

/// What so many walkers leave on a table, with its rows.
fn race_out<R: Threads + Sync>(
    rt: &R,
    alloc: Global,
    words: Words<'_>,
    mut pass: Pass,
    count: u32,
) -> Result<Race, AllocError>
    requires some { 0 < count }
    requires here { IsOf words pass }
    requires free { pass.view.spare ≡ None }
    requires rights { pass.view.rights ≡ count }
{
    match race_all(rt, alloc, &words, &mut pass, count) {
        Ok(raced) => {
            let rows = rows_of(alloc, words, pass)?;
            Ok(Race { rows, ..raced })
        }
        Err(refusal) => {
            drop(pass);
            drop(words);
            Err(refusal)
        }
    }
}

/// What so many walkers leave that intern all sets of switches at once.
fn run_race<R: Threads + Sync>(
    rt: &R,
    alloc: Global,
    problem: &GroundProblem,
    count: u32,
) -> Result<Race, AllocError>
    requires { (0 < count) × (count ≤ 16) }
{
    let sizes = Sizes {
        workers: count,
        states: SETS,
        sweep_states: 64,
    };
    let Opening {
        words,
        pass,
        extent: _,
        index,
        near,
    } = open(alloc, problem, &sizes)?;
    drop(near);
    drop(index);
    race_out(rt, alloc, words, pass, count)
}

/// Whether two and four threads number the sets alike.
fn number_alike<R: Threads + Sync>(
    rt: &R,
    alloc: Global,
    problem: &GroundProblem,
) -> Result<bool, AllocError> {
    let two = run_race(rt, alloc, problem, 2)?;
    let four = run_race(rt, alloc, problem, 4)?;
    Ok(two.came_out() && four.came_out())
}

/// Two and four threads intern all sets at once, each in an order of its own.
#[test]
fn threads_number_states_alike(rt: HostRuntime) -> Result<(), Fail> {
    let alloc = rt.alloc();
    let problem = problem_of(alloc, SWITCHES)?;
    let alike = number_alike(&rt, alloc, &problem);
    drop(problem);
    assert!(rt; alike?);
    Ok(())
}
