//! Seeds by closures of the tests' own, against numbers that were computed by hand.

ghost use Rattle.std.specs.Prelude.{◌≡◌, length};
ghost use Rattle.decision_process.specs.under.Under.{IsUnder};
ghost use Rattle.ground_model.specs.Steps.{ground_process};
ghost use Rattle.bound_core.specs.Core.{width};
ghost use Rattle.word_table.specs.Seen.{IsOf};
ghost use Rattle.lower_seed.specs.Rules.{BoundsFromBelow};
ghost use Rattle.lower_seed.specs.Costs.{least_choice};

use crate::problems::{DEAR_COIN, HAUL, problem_of};
use crate::table::steps::find_id;
use bound_words::{Interval, interval};
use brtdp_trial::GIVE_UP;
use ground_model::{GroundProblem, State};
use lower_seed::{Rule, cost_value, keep, least_choice, seeded, under_of};
use plan_search::{Opening, Sizes, finish, open};
use sample_problems::{coin, sure_coin};
use std::alloc::{AllocError, Global};
use std::test::Fail;
use word_table::{Pass, Words};

/// One worker, and all states of a small problem.
const SIZES: Sizes = Sizes {
    workers: 1,
    states: 65,
    sweep_states: 64,
};

/// The mean over the starts by a rule, where nothing was narrowed.
fn under_by<R: Rule>(alloc: Global, problem: &GroundProblem, rule: R) -> Result<u64, AllocError>
    requires { BoundsFromBelow R.takes R.answers problem.now rule }
{
    let Opening {
        words,
        pass,
        extent: _,
        index,
        near,
    } = open(alloc, problem, &SIZES)?;
    drop(near);
    drop(index);
    let image = finish(alloc, words, pass)?;
    let seed = keep(problem, rule);
    Ok(under_of(problem, &image, &seed))
}

/// The mean over the starts by the costs of choices.
fn under_costs(alloc: Global, problem: &GroundProblem) -> Result<u64, AllocError> {
    let least = least_choice(problem);
    under_by(alloc, problem, |state: &State| {
        cost_value(problem, least, state)
    })
}

/// The mean over the starts by a table, which has a number for states without the first atom and one for states with it,
/// each as far as the costs of choices allow.
fn under_table(alloc: Global, problem: &GroundProblem, table: [u64; 2]) -> Result<u64, AllocError> {
    let least = least_choice(problem);
    under_by(
        alloc,
        problem,
        move |state: &State| -> u64
            requires length { length state.now ≡ width problem.now }
            requires least { least ≡ least_choice problem.now }
            ensures { IsUnder (ground_process problem.entry.now) result state.now }
        {
            let most = cost_value(problem, least, state);
            let number = if state.has_bit(0) { table[1] } else { table[0] };
            number.min(most)
        },
    )
}

/// The interval of a state by a rule, and then as it is read; None where the state has no id.
fn read_by<R: Rule>(
    words: &Words<'_>,
    pass: &mut Pass,
    state: &State,
    rule: R,
) -> Option<(Interval, Interval)>
    requires here { IsOf words.now pass.old }
    requires bounds { BoundsFromBelow R.takes R.answers words.now.problem rule }
{
    let id = find_id(words, pass, state)?;
    let seed = keep(words.problem(), rule);
    let both = seeded(words, pass, id, state, &seed);
    let alone = interval(words, pass, id);
    Some((both, alone))
}

/// The interval of the first start by a rule, and then as it is read, where nothing was narrowed.
fn start_by<R: Rule>(
    alloc: Global,
    problem: &GroundProblem,
    rule: R,
) -> Result<Option<(Interval, Interval)>, AllocError>
    requires { BoundsFromBelow R.takes R.answers problem.now rule }
{
    let Opening {
        words,
        mut pass,
        extent: _,
        index,
        near,
    } = open(alloc, problem, &SIZES)?;
    drop(near);
    drop(index);
    let found = match problem.starts().first() {
        None => None,
        Some(start) => read_by(&words, &mut pass, &start.state, rule),
    };
    drop(pass);
    drop(words);
    Ok(found)
}

/// The interval of the first start by the costs of choices, and then as it is read.
fn start_costs(
    alloc: Global,
    problem: &GroundProblem,
) -> Result<Option<(Interval, Interval)>, AllocError> {
    let least = least_choice(problem);
    start_by(alloc, problem, |state: &State| {
        cost_value(problem, least, state)
    })
}

/// A flip costs one unit; at three of ten starts of the sure coin nothing is left to do; the shortest way of the haul
/// costs one and a half; and the dear coin is given up for a half.
#[test]
fn means_by_costs(rt: HostRuntime) -> Result<(), Fail> {
    let alloc = rt.alloc();
    let problem = coin(alloc)?;
    let found = under_costs(alloc, &problem);
    drop(problem);
    assert_eq!(rt; found?, 1_000_000);
    let problem = sure_coin(alloc)?;
    let found = under_costs(alloc, &problem);
    drop(problem);
    assert_eq!(rt; found?, 700_000);
    let problem = problem_of(alloc, HAUL)?;
    let found = under_costs(alloc, &problem);
    drop(problem);
    assert_eq!(rt; found?, 1_500_000);
    let problem = problem_of(alloc, DEAR_COIN)?;
    let found = under_costs(alloc, &problem);
    drop(problem);
    assert_eq!(rt; found?, 500_000);
    Ok(())
}

/// Seven of ten starts have the 5 of the table, and the others are goals: 3.5, rounded down.
#[test]
fn mean_by_a_table(rt: HostRuntime) -> Result<(), Fail> {
    let alloc = rt.alloc();
    let problem = sure_coin(alloc)?;
    let found = under_table(alloc, &problem, [5, 9]);
    drop(problem);
    assert_eq!(rt; found?, 3);
    Ok(())
}

/// A closure that always answers 0 leaves the interval as it is read.
#[test]
fn zero_leaves_an_interval(rt: HostRuntime) -> Result<(), Fail> {
    let alloc = rt.alloc();
    let problem = problem_of(alloc, HAUL)?;
    let found = start_by(alloc, &problem, |_: &State| 0u64);
    drop(problem);
    let Some((both, alone)) = found? else {
        return Err(Fail::new("the start is not found"));
    };
    assert_eq!(rt; both, alone);
    Ok(())
}

/// The costs of choices raise the lower bound alone.
#[test]
fn costs_raise_an_interval(rt: HostRuntime) -> Result<(), Fail> {
    let alloc = rt.alloc();
    let problem = problem_of(alloc, HAUL)?;
    let found = start_costs(alloc, &problem);
    drop(problem);
    let first = Interval {
        lower: 0,
        upper: 10_000_000,
        code: GIVE_UP,
    };
    let raised = Interval {
        lower: 1_500_000,
        upper: 10_000_000,
        code: GIVE_UP,
    };
    assert_eq!(rt; found?, Some((raised, first)));
    Ok(())
}
