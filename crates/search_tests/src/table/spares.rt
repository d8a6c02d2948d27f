//! Two passes that want the same new state.

ghost use Rattle.std.specs.Prelude.{◌≡◌, ◌≤◌, None, IfSome, IfNone};
ghost use Rattle.word_table.specs.view.Views.{IsReached};
ghost use Rattle.word_table.specs.Seen.{IsOf};
ghost use Rattle.search_tests.specs.Steps.{CanWalk, IsPrepared};

use crate::problems::{SWITCHES, problem_of};
use crate::table::steps::{find_id, intern_id, part, reach};
use ground_model::{GroundProblem, State};
use ground_step::hash;
use plan_search::{Opening, Sizes, open};
use sample_problems::state_of;
use std::alloc::{AllocError, Global};
use std::test::Fail;
use word_table::{Claim, Pass, Words, claim, load_count, publish, write_word};

/// Claims the next id and writes the one word of a state under it. None: no id is left, another pass was first, or
/// states have several words.
fn claim_for(words: &Words<'_>, pass: &mut Pass, state: &State) -> Option<u32>
    requires can { CanWalk words.now pass.old }
    requires free { pass.old.view.spare ≡ None }
    requires reached { IsReached pass.old.view state.now }
    ensures { IfSome result (λ id. IsPrepared words.now pass.new state.now) }
{
    if words.width() != 1 {
        return None;
    }
    if state.words().len() != 1 {
        return None;
    }
    let count = load_count(words, pass);
    if count >= words.ids() {
        return None;
    }
    match claim(words, pass, count) {
        Claim::Moved(_) => None,
        Claim::Own(id) => {
            write_word(words, pass, 0, state.words()[0]);
            Some(id)
        }
    }
}

/// Makes ready to publish the state to which an action leads, as whoever did not find it does. None: it was found, or can
/// not be made ready.
fn prepare(
    words: &Words<'_>,
    pass: &mut Pass,
    state: &State,
    action: u16,
    next: &mut State,
) -> Option<u32>
    requires can { CanWalk words.now pass.old }
    requires free { pass.old.view.spare ≡ None }
    ensures { IfSome result (λ id. IsPrepared words.now pass.new next.new) }
{
    if !reach(words, pass, state, action, next) {
        return None;
    }
    if let Some(_id) = find_id(words, pass, next) {
        return None;
    }
    claim_for(words, pass, next)
}

/// Puts a state that was made ready into the first bucket of its run. Some: the bucket holds that id.
fn publish_first(words: &Words<'_>, pass: &mut Pass, state: &State) -> Option<u32>
    requires { IsPrepared words.now pass.old state.now }
    ensures can { CanWalk words.now pass.new }
    ensures reached { IsReached pass.new.view state.now }
    ensures none { IfNone result (pass.new.view.spare ≡ None) }
{
    let bucket = (hash(state) % u64::from(words.buckets())) as u32;
    match publish(words, pass, bucket) {
        None => None,
        Some(id) => Some(id),
    }
}

/// Claims the next id, if so many are given out. Some: another count was found, this one.
fn claim_at(words: &Words<'_>, pass: &mut Pass, from: u32) -> Option<u32>
    requires can { CanWalk words.now pass.old }
    requires free { pass.old.view.spare ≡ None }
    requires count { from ≤ pass.old.view.count }
    ensures can { CanWalk words.now pass.new }
    ensures free { IfSome result (λ found. pass.new.view.spare ≡ None) }
{
    if from >= words.ids() {
        return None;
    }
    match claim(words, pass, from) {
        Claim::Own(_) => None,
        Claim::Moved(found) => Some(found),
    }
}

/// Both passes miss the same state, claim an id for it, and put it into the same bucket: it has the id of the first one, and
/// the second one loses. Some: the second one has the next id as its spare, this one.
fn lose(
    words: &Words<'_>,
    first: &mut Pass,
    second: &mut Pass,
    start: &State,
    one: &mut State,
    other: &mut State,
) -> Option<u32>
    requires first { CanWalk words.now first.old × (first.old.view.spare ≡ None) }
    requires second { CanWalk words.now second.old × (second.old.view.spare ≡ None) }
    ensures can { IfSome result (λ spare. CanWalk words.now second.new) }
    ensures reached { IfSome result (λ spare. IsReached second.new.view other.new) }
{
    let count = load_count(words, second);
    let id = prepare(words, first, start, 2, one)?;
    // the count was passed by
    let found = claim_at(words, second, count)?;
    let spare = prepare(words, second, start, 2, other)?;
    if publish_first(words, first, one).is_some() {
        return None;
    }
    let held = publish_first(words, second, other)?;
    if id != count || held != id || spare != found || found != count.saturating_add(1) {
        return None;
    }
    Some(spare)
}

/// The loser finds the state by the id of the winner, and gives its spare to its next new state: no id is lost.
fn spend(
    words: &Words<'_>,
    pass: &mut Pass,
    start: &State,
    lost: &State,
    next: &mut State,
    spare: u32,
) -> bool
    requires can { CanWalk words.now pass.old }
    requires reached { IsReached pass.old.view lost.now }
{
    let Some(found) = intern_id(words, pass, lost) else {
        return false;
    };
    if found >= spare || pass.spare() != Some(spare) {
        return false;
    }
    if !reach(words, pass, start, 3, next) {
        return false;
    }
    let id = intern_id(words, pass, next);
    let count = load_count(words, pass);
    id == Some(spare) && !pass.holds_spare() && count == spare.saturating_add(1)
}

/// Whether the loser of a race from a state keeps its spare, on a table with its first pass.
fn keeps_spare(
    alloc: Global,
    words: &Words<'_>,
    first: &mut Pass,
    start: &State,
) -> Result<bool, AllocError>
    requires here { IsOf words.now first.old }
    requires free { first.old.view.spare ≡ None }
    requires rights { first.old.view.rights ≡ 2 }
{
    let mut one = state_of(alloc, &[0])?;
    let mut other = state_of(alloc, &[0])?;
    let mut next = state_of(alloc, &[0])?;
    let mut second = part(words, first);
    let lost = lose(words, first, &mut second, start, &mut one, &mut other);
    let kept = match lost {
        None => false,
        Some(spare) => spend(words, &mut second, start, &other, &mut next, spare),
    };
    Ok(kept)
}

/// Whether the loser of a race from this state of a problem keeps its spare.
fn races_in(alloc: Global, problem: &GroundProblem, start: &State) -> Result<bool, AllocError> {
    let sizes = Sizes {
        workers: 2,
        states: 4_096,
        sweep_states: 64,
    };
    let Opening {
        words,
        pass: mut first,
        extent: _,
        index,
        near,
    } = open(alloc, problem, &sizes)?;
    drop(near);
    drop(index);
    let kept = keeps_spare(alloc, &words, &mut first, start);
    drop(first);
    drop(words);
    kept
}

/// With the first two switches on, which is listed, both passes turn the third one on, and then the loser the fourth one.
#[test]
fn who_loses_a_race_keeps_its_spare(rt: HostRuntime) -> Result<(), Fail> {
    let alloc = rt.alloc();
    let start = state_of(alloc, &[3])?;
    let problem = problem_of(alloc, SWITCHES)?;
    let kept = races_in(alloc, &problem, &start);
    drop(problem);
    assert!(rt; kept?);
    Ok(())
}
