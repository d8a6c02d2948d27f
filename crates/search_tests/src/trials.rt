//! Trials over listed states: where they end, and which draws they take.

ghost use Rattle.std.specs.Prelude.{◌≡◌, ◌<◌, ◌≤◌, ◌^◌, IfOk};
ghost use Rattle.search_tests.specs.TwoStates.{leads_to};

use brtdp_trial::{
    Ends, Interval, List, ListedAction, ListedBounds, ListedStart, ListedState, Outcome, Path,
    Trial, TrialEnd, trial,
};
use std::alloc::{AllocError, Global};
use std::test::Fail;

/// The greatest weight.
const MOST_WEIGHT: u64 = 1_000_000_000_000_000_000;

/// The greatest number of an interval.
const MOST_NUMBER: u64 = 100_000_000_000_000;

/// What a draw is taken modulo, where one choice has the greatest weight and the widest interval.
const TOTAL: u128 = 100_000_000_000_000_000_000_000_000_000_000;

/// A start whose one action comes out in one way, and a state without an id.
fn one_way(
    alloc: Global,
    penalty: u64,
    way: Outcome,
    upper: u64,
    next: u64,
) -> Result<ListedBounds, AllocError>
    requires weight { (0 < way.weight) × (way.weight ≤ 10 ^ 18) }
    requires way { (way.cost ≤ 10 ^ 14) × (way.next < 2) }
    requires numbers { (penalty ≤ 10 ^ 14) × (upper ≤ 10 ^ 14) × (next ≤ 10 ^ 14) }
{
    let start = ListedStart {
        weight: way.weight,
        state: 0,
    };
    let numbers = [
        Interval { lower: 0, upper },
        Interval {
            lower: 0,
            upper: next,
        },
    ];
    let starts = List::from_vec(Vec::from_array(alloc, [start])?);
    let numbers = List::from_vec(Vec::from_array(alloc, numbers)?);
    // What is long to let go comes last.
    let action = ListedAction {
        den: way.weight,
        outcomes: List::from_vec(Vec::from_array(alloc, [way])?),
    };
    let first = ListedState {
        placed: true,
        goal: false,
        actions: List::from_vec(Vec::from_array(alloc, [action])?),
    };
    let second = ListedState {
        placed: false,
        goal: false,
        actions: List::from_vec(Vec::new(alloc)),
    };
    let states = List::from_vec(Vec::from_array(alloc, [first, second])?);
    Ok(ListedBounds::new(penalty, starts, states, numbers))
}

/// The end of a trial from a start whose one action leads at this cost to a state without an id, where giving up costs 8,
/// with the interval of the start afterwards.
fn ended(
    alloc: Global,
    cost: u64,
    upper: u64,
    next: u64,
    depth: u32,
) -> Result<(Trial, Option<Interval>), AllocError>
    requires numbers { (cost ≤ 8) × (upper ≤ 8) × (next ≤ 8) }
    requires deep { 1 ≤ depth }
{
    let way = Outcome {
        weight: 1,
        cost,
        next: 1,
    };
    let mut bounds = one_way(alloc, 8, way, upper, next)?;
    let mut path = Path::make(alloc, depth)?;
    let answer = trial(&mut bounds, 0, 1, depth, 10, Ends::Depth, &mut path);
    Ok((answer, bounds.interval(0)))
}

/// What `ended` is to answer.
fn answer(end: TrialEnd, length: u32, lower: u64, upper: u64) -> (Trial, Option<Interval>) {
    (Trial { end, length }, Some(Interval { lower, upper }))
}

#[test]
fn trials_end_where_their_choices_say(rt: HostRuntime) -> Result<(), Fail> {
    let alloc = rt.alloc();
    // the start is closed
    assert_eq!(rt;
        ended(alloc, 1, 0, 0, 5)?,
        answer(TrialEnd::Narrow, 0, 0, 0)
    );
    // no action costs less than giving up
    assert_eq!(rt; ended(alloc, 8, 8, 8, 5)?, answer(TrialEnd::Dead, 1, 8, 8));
    // what follows is open, at the greatest depth too
    assert_eq!(rt;
        ended(alloc, 1, 8, 8, 5)?,
        answer(TrialEnd::Unplaced, 1, 1, 8)
    );
    assert_eq!(rt; ended(alloc, 1, 8, 8, 1)?, answer(TrialEnd::Depth, 1, 1, 8));
    // what follows is closed
    assert_eq!(rt;
        ended(alloc, 1, 8, 0, 5)?,
        answer(TrialEnd::Narrow, 1, 1, 1)
    );
    Ok(())
}

/// A state whose one action leads to a state at a cost of 1.
fn state_with(alloc: Global, next: u32) -> Result<ListedState, AllocError>
    ensures { IfOk result (λ s. s ≡ leads_to next) }
{
    let way = Outcome {
        weight: 1,
        cost: 1,
        next,
    };
    let action = ListedAction {
        den: 1,
        outcomes: List::from_vec(Vec::from_array(alloc, [way])?),
    };
    Ok(ListedState {
        placed: true,
        goal: false,
        actions: List::from_vec(Vec::from_array(alloc, [action])?),
    })
}

/// Two states that lead to each other at a cost of 1, where giving up costs 8. The first is the start.
fn to_each_other(alloc: Global) -> Result<ListedBounds, AllocError> {
    let start = ListedStart {
        weight: 1,
        state: 0,
    };
    let number = Interval { lower: 0, upper: 8 };
    let starts = List::from_vec(Vec::from_array(alloc, [start])?);
    let numbers = List::from_vec(Vec::from_array(alloc, [number, number])?);
    // What is long to let go comes last.
    let first = state_with(alloc, 1)?;
    let second = state_with(alloc, 0)?;
    let states = List::from_vec(Vec::from_array(alloc, [first, second])?);
    Ok(ListedBounds::new(8, starts, states, numbers))
}

/// The id of a turn.
fn id_at(path: &Path, place: usize) -> Option<u32> {
    path.turns().get(place).map(|turn| turn.id)
}

/// The end of a trial between these states, the ids of its first three turns, and the interval of the start afterwards.
fn passed(
    alloc: Global,
    ends: Ends,
    depth: u32,
) -> Result<(Trial, [Option<u32>; 3], Option<Interval>), AllocError>
    requires { 1 ≤ depth }
{
    let mut bounds = to_each_other(alloc)?;
    let mut path = Path::make(alloc, depth)?;
    let answer = trial(&mut bounds, 0, 1, depth, 10, ends, &mut path);
    let ids = [id_at(&path, 0), id_at(&path, 1), id_at(&path, 2)];
    Ok((answer, ids, bounds.interval(0)))
}

/// What `passed` is to answer.
fn passing(
    end: TrialEnd,
    length: u32,
    ids: [Option<u32>; 3],
    lower: u64,
) -> (Trial, [Option<u32>; 3], Option<Interval>) {
    let interval = Interval { lower, upper: 8 };
    (Trial { end, length }, ids, Some(interval))
}

#[test]
fn trials_end_at_new_states_where_they_are_to(rt: HostRuntime) -> Result<(), Fail> {
    let alloc = rt.alloc();
    // the second state is new when it is drawn, and is backed up
    let new = passing(TrialEnd::New, 2, [Some(0), Some(1), None], 3);
    assert_eq!(rt; passed(alloc, Ends::New, 5)?, new);
    // that comes before the depth
    assert_eq!(rt; passed(alloc, Ends::New, 2)?, new);
    // a start is never new
    assert_eq!(rt;
        passed(alloc, Ends::New, 1)?,
        passing(TrialEnd::Depth, 1, [Some(0), None, None], 1)
    );
    assert_eq!(rt;
        passed(alloc, Ends::Depth, 3)?,
        passing(TrialEnd::Depth, 3, [Some(0), Some(1), Some(0)], 5)
    );
    Ok(())
}

/// What is left of the draw at a place of a path: of the start, or of a turn.
fn rest_of(path: &Path, place: usize) -> Option<u128> {
    if place == 0 {
        return path.start().drawn.map(|drawn| drawn.rest);
    }
    let turns = path.turns();
    if place > turns.len() {
        return None;
    }
    turns[place - 1].drawn.map(|drawn| drawn.rest)
}

/// What is left of a draw of a trial: of the first one by the start, of each further one by a turn. A step leads back to the
/// start and costs nothing, so that all are taken modulo the same total.
fn rest_at(
    alloc: Global,
    seed: u64,
    number: u64,
    place: usize,
) -> Result<Option<u128>, AllocError> {
    let way = Outcome {
        weight: MOST_WEIGHT,
        cost: 0,
        next: 0,
    };
    let mut bounds = one_way(alloc, MOST_NUMBER, way, MOST_NUMBER, MOST_NUMBER)?;
    let mut path = Path::make(alloc, 6)?;
    trial(&mut bounds, number, seed, 6, 10, Ends::Depth, &mut path);
    Ok(rest_of(&path, place))
}

/// The first four draws are the first 16 words of ChaCha8 with a key of zeros, by the test vectors of Strombergson's
/// draft of 2013. Those with another seed or number were made by another program.
#[test]
fn draws_depend_on_seed_number_and_place(rt: HostRuntime) -> Result<(), Fail> {
    for (seed, number, place, draw) in [
        (0, 0, 0, 0x2fef003e_d6405f89_e8b85b7f_a1a5091f_u128),
        (0, 0, 1, 0xc30e842c_3b7f9ace_88e11b18_1e1a71ef),
        (0, 0, 2, 0x72e14c98_416f21b9_6753449f_19566d45),
        (0, 0, 3, 0xa3424a31_01b086da_b8fd7b38_42fe0c0e),
        (1, 0, 0, 0xa0e95ecf_61a94a49_edd5053e_4b805b72),
        (1, 0, 1, 0x65a4f412_cc5a63ee_e81d313a_ea890474),
        (1, 1, 0, 0x8c6fea14_1a8125d4_ac499192_d167e651),
        (7, 2, 4, 0x876580f9_c1bee50f_eb5269dc_51bf6492),
        (7, 2, 5, 0x6ce5e809_845f8d1e_1d59a259_8454eebb),
        (u64::MAX, u64::MAX, 0, 0x568ff132_f89e7f57_9bfbc29d_3b695aaa),
        (u64::MAX, u64::MAX, 4, 0xcca0b253_530c2970_84d485f0_9eaaae45),
    ] {
        let rest = rest_at(rt.alloc(), seed, number, place)?;
        assert_eq!(rt;
            rest,
            Some(draw % TOTAL),
            "draw {place} of trial {number} of seed {seed}"
        );
    }
    Ok(())
}
