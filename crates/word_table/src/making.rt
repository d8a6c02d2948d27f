//! How a table is made.

ghost use Rattle.std.specs.Prelude.{◌≡◌, ◌<◌, ◌≤◌, ◌+◌, ℕ, [], length, IfOk};
ghost use Rattle.ground_model.specs.Invariant.{IsGroundProblem};
ghost use Rattle.ground_step.specs.Hash.{hash_of};
ghost use Rattle.bound_core.specs.Core.{width};
ghost use Rattle.bound_core.specs.Numbers.{first_word};
ghost use Rattle.bound_core.specs.declared.codes.TheConstants.{MOST_IDS};
ghost use Rattle.word_table.specs.layout.Places.{size, IsLayout};
ghost use Rattle.word_table.specs.declared.layout.TheConstants.{MOST_WIDTH};
ghost use Rattle.word_table.specs.rule.Made.{AreMade, IsPut};
ghost use Rattle.word_table.specs.Made.{HasFree, IsFree, HasWritten, AreFirst, IsMade};

use crate::key::Key;
use crate::layout::Layout;
use crate::pass::Pass;
use crate::words::Words;
use atomic_table::Table;
use bound_core::{AT_GOAL, GIVE_UP};
use fixed_round::UpperWord;
use ground_model::{GroundProblem, State};
use ground_step::{hash, is_goal};
use std::alloc::{AllocError, Global};

/// The number of words of a state.
fn width(problem: &GroundProblem) -> u32
    ensures valid { IsGroundProblem problem.now }
    ensures width { result ≡ width problem.now }
    ensures within { (0 < result) × (result ≤ MOST_WIDTH) }
{
    problem.atoms().len().div_ceil(64).max(1) as u32
}

/// The upper word of a state of which nothing is known.
pub(crate) fn first_word(problem: &GroundProblem, state: &State) -> UpperWord
    ensures { result ≡ first_word problem.now state.now }
{
    if is_goal(problem, state) {
        UpperWord::pack(0, AT_GOAL)
    } else {
        UpperWord::pack(problem.penalty(), GIVE_UP)
    }
}

/// The first empty bucket of a run.
fn free_bucket(words: &[u64], layout: Layout, hash: u64) -> u32
    requires layout { IsLayout layout }
    requires words { length words.now ≡ size layout }
    requires free { HasFree layout words.now hash }
    ensures { IsFree layout words.now hash result }
{
    let first = (hash % u64::from(layout.buckets)) as u32;
    for turn in 0..layout.buckets {
        let bucket = (first + turn) % layout.buckets;
        if words[layout.bucket(bucket)] == 0 {
            return bucket;
        }
    }
    unreachable!()
}

/// Writes the words of a state, from a place on.
fn write_state(words: &mut [u64], first: usize, state: &State)
    requires { first + length state.now ≤ length words.old }
    ensures { HasWritten state.now first (length state.now) words.old words.new }
{
    for (place, word) in state.words().iter().enumerate() {
        words[first + place] = *word;
    }
}

/// Publishes a state with the next id, at its first numbers.
fn put_state(problem: &GroundProblem, layout: Layout, words: &mut [u64], id: u32, state: &State)
    requires layout { IsLayout layout }
    requires words { length words.old ≡ size layout }
    requires id { id < layout.ids }
    requires state { length state.now ≡ layout.width }
    requires free { HasFree layout words.old (hash_of state.now) }
    ensures { (bucket : ℕ) × IsPut problem.now layout state.now id bucket words.old words.new }
{
    let bucket = free_bucket(words, layout, hash(state));
    words[layout.bucket(bucket)] = u64::from(id) + 1;
    write_state(words, layout.state_word(id, 0), state);
    words[layout.upper(id)] = first_word(problem, state).word();
    words[0] = u64::from(id) + 1;
}

/// The words of a table in which no id is given out.
fn empty_words(
    alloc: Global,
    problem: &GroundProblem,
    layout: Layout,
) -> Result<Vec<u64>, AllocError>
    requires { IsLayout layout }
    ensures { IfOk result (λ words. AreMade problem.now layout [] words.items) }
{
    let quit = UpperWord::pack(problem.penalty(), GIVE_UP).word();
    let mut words = vec![in alloc; 0u64; layout.size()]?;
    for id in 0..layout.ids {
        words[layout.upper(id)] = quit;
    }
    Ok(words)
}

/// The words of a table in which these states are published.
fn first_words(
    alloc: Global,
    problem: &GroundProblem,
    layout: Layout,
    states: &[State],
) -> Result<Vec<u64>, AllocError>
    requires problem { IsGroundProblem problem.now }
    requires layout { IsLayout layout × (layout.width ≡ width problem.now) }
    requires states { AreFirst problem.now layout.ids states.now }
    ensures { IfOk result (λ words. AreMade problem.now layout states.now words.items) }
{
    let mut words = empty_words(alloc, problem, layout)?;
    for (id, state) in states.iter().enumerate() {
        put_state(problem, layout, words.as_mut_slice(), id as u32, state);
    }
    Ok(words)
}

/// A table of so many ids, and a pass that has these states, each with its place as its id, and all the
/// claim rights. The states are published, at their first numbers.
pub fn make<'p>(
    alloc: Global,
    problem: &'p GroundProblem,
    ids: u32,
    rights: u32,
    states: &[State],
) -> Result<(Words<'p>, Pass), AllocError>
    requires ids { (0 < ids) × (ids ≤ MOST_IDS) }
    requires states { AreFirst problem.now ids states.now }
    ensures { IfOk result (λ r. IsMade problem.now ids rights states.now r.0 r.1) }
{
    let layout = Layout::new(ids, width(problem));
    let words = first_words(alloc, problem, layout, states)?;
    let key = Key {
        problem,
        layout,
        rights,
        words,
    };
    let (table, seat) = Table::of_words(alloc, key.words.as_slice(), &key)?;
    let words = Words {
        problem,
        layout,
        lower_words: layout.lower(0),
        upper_words: layout.upper(0),
        rights,
        table,
    };
    Ok((words, Pass { seat, spare: None }))
}
