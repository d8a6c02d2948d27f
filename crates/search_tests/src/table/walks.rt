//! Walks over all sets of switches.

ghost use Rattle.std.specs.Prelude.{◌<◌, length, All};
ghost use Rattle.search_tests.specs.Steps.{CanWalk};

use crate::table::steps::{intern_id, reach};
use ground_model::State;
use std::thread::{Threads, for_each_mut};
use word_table::{Pass, Words};

/// How many switches there are.
pub(super) const SWITCHES: u32 = 14;

/// How many sets of them there are.
pub(super) const SETS: u32 = 16_384;

const _: () = prove!(SWITCHES == 14);

const _: () = prove!(SETS == 16_384);

/// Who interns all sets of switches in an order of its own.
#[derive(Drop)]
pub(super) struct Walker {
    /// Its pass.
    pub pass: Pass,
    /// By how many places it turns the numbers of switches.
    pub shift: u32,
    /// A state that has an id.
    pub state: State,
    /// A state that comes next.
    pub next: State,
    /// The id of each set.
    pub ids: Vec<u32>,
}

/// The numbers of switches in a set, turned by so many places.
fn turned(set: u32, shift: u32) -> u32 {
    let shift = shift % SWITCHES;
    ((set << shift) | (set >> (SWITCHES - shift))) & (SETS - 1)
}

/// The id of a set with one switch more than another that has an id.
fn put(
    words: &Words<'_>,
    pass: &mut Pass,
    state: &mut State,
    next: &mut State,
    set: u32,
    switch: u32,
) -> Option<u32>
    requires { CanWalk words.now pass.old }
    ensures { CanWalk words.now pass.new }
{
    if state.words().is_empty() {
        return None;
    }
    state.set_word(0, u64::from(set));
    if !reach(words, pass, state, (switch % SWITCHES) as u16, next) {
        return None;
    }
    intern_id(words, pass, next)
}

/// Interns all sets, each behind the set without its first switch.
fn walk(words: &Words<'_>, walker: &mut Walker)
    requires { CanWalk words.now walker.old.pass }
{
    for number in 1..SETS {
        let set = turned(number, walker.shift);
        let rest = turned(number & (number - 1), walker.shift);
        let switch = (set ^ rest).trailing_zeros();
        let found = put(
            words,
            &mut walker.pass,
            &mut walker.state,
            &mut walker.next,
            rest,
            switch,
        );
        if let Some(id) = found {
            if (set as usize) < walker.ids.len() {
                walker.ids[set as usize] = id;
            }
        }
    }
}

/// All walk at once, each in a thread of its own where one can be made.
pub(super) fn walk_all<R: Threads + Sync>(rt: &R, words: &Words<'_>, walkers: &mut [Walker])
    requires some { 0 < length walkers.old }
    requires can { All (λ w. CanWalk words.now w.pass) walkers.old }
{
    let count = walkers.len();
    for_each_mut(
        rt,
        walkers,
        count,
        &|_, walker: &mut Walker|
            requires { CanWalk words.now walker.old.pass }
        { walk(words, walker) },
    );
}
