//! Events of a core, against numbers and refusals that were worked out by hand.

use core_run::{AT_GOAL, CoreRefusal, CoreState, Event, GIVE_UP, MOST_IDS, run_events};
use fixed_round::UpperWord;
use ground_model::GroundProblem;
use sample_problems::{coin, tire};
use std::alloc::{AllocError, Global};
use std::process::Abort;
use std::test::Fail;

/// Worker 0 publishes heads, worker 1 begins with what it knows, and both see the upper words.
const SHARED: [Event; 8] = [
    Event::Claim { worker: 0 },
    Event::Write {
        worker: 0,
        place: 0,
        word: 1,
    },
    Event::Publish { worker: 0 },
    Event::Split { worker: 0 },
    Event::SeeUpper { worker: 0, id: 0 },
    Event::SeeUpper { worker: 0, id: 1 },
    Event::SeeUpper { worker: 1, id: 0 },
    Event::SeeUpper { worker: 1, id: 1 },
];

/// Worker 1 knows the start alone. Worker 0 publishes the second place, with a good tire as id 1 and with a flat one as
/// id 2.
const TRAVELLED: [Event; 7] = [
    Event::Split { worker: 0 },
    Event::Claim { worker: 0 },
    Event::Write {
        worker: 0,
        place: 0,
        word: 37,
    },
    Event::Publish { worker: 0 },
    Event::Claim { worker: 0 },
    Event::Write {
        worker: 0,
        place: 0,
        word: 36,
    },
    Event::Publish { worker: 0 },
];

fn write(worker: u32, place: u32, word: u64) -> Event {
    Event::Write {
        worker,
        place,
        word,
    }
}

fn raise(worker: u32, id: u32, value: u64) -> Event {
    Event::Raise { worker, id, value }
}

fn sink(worker: u32, id: u32, value: u32, code: u16) -> Event {
    let upper = UpperWord::pack(u64::from(value), code);
    Event::Sink { worker, id, upper }
}

/// Runs what comes first, and then what comes last.
fn run(
    alloc: Global,
    problem: &GroundProblem,
    first: &[Event],
    last: &[Event],
) -> Result<Result<CoreState, CoreRefusal>, AllocError> {
    let mut events = Vec::from_slice(alloc, first)?;
    events.extend_from_slice(last)?;
    if events.len() > 1_000_000 {
        return Err(AllocError);
    }
    Ok(run_events(alloc, problem, &events))
}

/// Whether all events are allowed but the last one.
fn ends_refused(
    alloc: Global,
    problem: &GroundProblem,
    first: &[Event],
    last: &[Event],
) -> Result<bool, AllocError> {
    match run(alloc, problem, first, last)? {
        Err(CoreRefusal::NotAllowed { index }) => {
            Ok(index as usize + 1 == first.len() + last.len())
        }
        Err(CoreRefusal::Memory) => Err(AllocError),
        Ok(_) => Ok(false),
    }
}

/// Whether each of the events is refused, where it comes next.
fn are_refused(
    alloc: Global,
    problem: &GroundProblem,
    first: &[Event],
    events: &[Event],
) -> Result<bool, AllocError> {
    for event in events {
        if !ends_refused(alloc, problem, first, &[*event])? {
            return Ok(false);
        }
    }
    Ok(true)
}

/// Whether none of the words is published by a worker that claims an id and writes it.
fn are_unpublished(
    alloc: Global,
    problem: &GroundProblem,
    first: &[Event],
    worker: u32,
    words: &[u64],
) -> Result<bool, AllocError> {
    let claim = Event::Claim { worker };
    let publish = Event::Publish { worker };
    for word in words {
        let last = [claim, write(worker, 0, *word), publish];
        if !ends_refused(alloc, problem, first, &last)? {
            return Ok(false);
        }
    }
    Ok(true)
}

/// Runs events on the coin, all of which are allowed.
fn run_on_coin(alloc: Global, first: &[Event], last: &[Event]) -> Result<CoreState, Fail> {
    let problem = coin(alloc)?;
    let core = run(alloc, &problem, first, last);
    drop(problem);
    Ok(core??)
}

/// The least upper word and the greatest lower one are left, and worker 0 has seen them of the joined one.
fn check_narrowed<R: Abort>(rt: &R, core: &CoreState) {
    let (rows, workers) = (core.ids.as_slice(), core.workers.as_slice());
    assert!(rt; rows.len() == 2 && workers.len() == 2);
    assert_eq!(rt; rows[0].upper, UpperWord::pack(4_000_000, 0));
    assert_eq!(rt; rows[0].lower, 1_000_000);
    assert!(rt; !workers[1].live);
    let seen = workers[0].seen.as_slice();
    assert!(rt; seen.len() == 2);
    assert_eq!(rt; (seen[0].id, seen[0].lower), (0, Some(1_000_000)));
    assert_eq!(rt; seen[0].upper, Some(UpperWord::pack(4_000_000, 0)));
    assert_eq!(rt; (seen[1].id, seen[1].lower), (1, None));
    assert_eq!(rt; seen[1].upper, Some(UpperWord::pack(0, AT_GOAL)));
}

#[test]
fn the_narrowest_word_stays(rt: HostRuntime) -> Result<(), Fail> {
    let alloc = rt.alloc();
    let raced = [
        sink(0, 0, 6_000_000, 0),
        Event::SeeUpper { worker: 0, id: 0 },
        sink(0, 0, 4_000_000, 0),
        // worker 1 has seen ten units
        sink(1, 0, 6_000_000, 0),
        raise(1, 0, 1_000_000),
        raise(0, 0, 500_000),
        Event::Join {
            worker: 0,
            other: 1,
        },
    ];
    let core = run_on_coin(alloc, &SHARED, &raced)?;
    check_narrowed(&rt, &core);
    drop(core);
    Ok(())
}

/// On the coin: what a worker may not do that does not exist, does not know the id or holds no spare, which numbers are
/// no bounds, and which spares are no states.
fn check_coin<R: Abort>(rt: &R, alloc: Global, problem: &GroundProblem) -> Result<(), AllocError> {
    let claim = Event::Claim { worker: 0 };
    let publish = Event::Publish { worker: 0 };
    let at_first = [
        // there is no worker 1, and id 1 is not known
        Event::Split { worker: 1 },
        Event::Claim { worker: 1 },
        Event::SeeLower { worker: 1, id: 0 },
        Event::SeeLower { worker: 0, id: 1 },
        Event::SeeUpper { worker: 0, id: 1 },
        Event::Look {
            worker: 0,
            id: Some(1),
        },
        // a flip costs one unit, and then 0 or ten units
        raise(0, 0, 1_000_001),
        sink(0, 0, 5_999_999, 0),
        sink(0, 0, 9_999_999, GIVE_UP),
        sink(0, 0, 10_000_000, 1),
        sink(0, 0, 0, AT_GOAL),
        // there is no spare, and no other worker
        write(0, 0, 1),
        publish,
        Event::Join {
            worker: 0,
            other: 0,
        },
        Event::Join {
            worker: 0,
            other: 1,
        },
    ];
    assert!(rt; are_refused(alloc, problem, &[], &at_first)?);
    // one spare at a time, of one word, which is written before it is published
    assert!(rt; are_refused(alloc, problem, &[claim], &[claim, write(0, 1, 1), publish])?);
    // tails has an id, and the second bit is no atom's
    assert!(rt; are_unpublished(alloc, problem, &[], 0, &[0, 2, 3])?);
    // at the goal nothing is raised, and its word is its own
    let at_goal = [raise(0, 1, 1), sink(0, 1, 0, GIVE_UP)];
    assert!(rt; are_refused(alloc, problem, &SHARED, &at_goal)?);
    Ok(())
}

#[test]
fn the_coin_refuses(rt: HostRuntime) -> Result<(), Fail> {
    let problem = coin(rt.alloc())?;
    let checked = check_coin(&rt, rt.alloc(), &problem);
    drop(problem);
    Ok(checked?)
}

/// On the road: what a worker may not do with what another one knows, which actions are not open, and which states
/// follow none that is known.
fn check_road<R: Abort>(rt: &R, alloc: Global, problem: &GroundProblem) -> Result<(), AllocError> {
    let claim = Event::Claim { worker: 1 };
    let join = Event::Join {
        worker: 0,
        other: 1,
    };
    let travelled = [
        // worker 1 knows the start alone
        Event::SeeLower { worker: 1, id: 1 },
        Event::SeeUpper { worker: 1, id: 2 },
        raise(1, 1, 1),
        // the goal is one move away
        sink(0, 1, 999_999, 1),
        // another tire is no way to the goal
        sink(0, 1, 1_000_000, 3),
        // no road leads back, and a flat tire must be changed first
        sink(0, 1, 99_000_000, 0),
        sink(0, 2, 1_000_000, 1),
    ];
    assert!(rt; are_refused(alloc, problem, &TRAVELLED, &travelled)?);
    // the first two have ids; no move leads to two places, from the first to the third, or past the atoms
    let words = [37, 36, 53, 69, 165];
    assert!(rt; are_unpublished(alloc, problem, &TRAVELLED, 1, &words)?);
    // a worker is joined without a spare, and once
    assert!(rt; ends_refused(alloc, problem, &TRAVELLED, &[claim, join])?);
    assert!(rt; ends_refused(alloc, problem, &TRAVELLED, &[join, claim])?);
    Ok(())
}

#[test]
fn the_road_refuses(rt: HostRuntime) -> Result<(), Fail> {
    let problem = tire(rt.alloc())?;
    let checked = check_road(&rt, rt.alloc(), &problem);
    drop(problem);
    Ok(checked?)
}

/// How many ids there are once worker 1 has looked at the second place and published the third one.
fn ids_behind_look(alloc: Global) -> Result<usize, Fail> {
    let last = [
        Event::Look {
            worker: 1,
            id: Some(1),
        },
        Event::Claim { worker: 1 },
        write(1, 0, 69),
        Event::Publish { worker: 1 },
    ];
    let problem = tire(alloc)?;
    let core = run(alloc, &problem, &TRAVELLED, &last);
    drop(problem);
    Ok(core??.ids.as_slice().len())
}

#[test]
fn who_looked_publishes(rt: HostRuntime) -> Result<(), Fail> {
    assert_eq!(rt; ids_behind_look(rt.alloc())?, 4);
    Ok(())
}

/// Whether a claim is refused where each worker but one has claimed an id. Tails has an id.
fn is_last_refused(alloc: Global, problem: &GroundProblem) -> Result<bool, AllocError> {
    let mut events = Vec::new(alloc);
    for worker in 1..MOST_IDS {
        events.push(Event::Split { worker: 0 })?;
        events.push(Event::Claim { worker })?;
    }
    ends_refused(alloc, problem, &events, &[Event::Claim { worker: 0 }])
}

#[test]
fn ids_run_out(rt: HostRuntime) -> Result<(), Fail> {
    let problem = coin(rt.alloc())?;
    let refused = is_last_refused(rt.alloc(), &problem);
    drop(problem);
    assert!(rt; refused?);
    Ok(())
}
