//! Parts of problems.

ghost use Rattle.std.specs.Prelude.{◌≡◌, IfOk};
ghost use Rattle.sample_problems.specs.Tire as road;

use ground_model::{Choice, List, State};
use std::alloc::{AllocError, Global};

/// The state of these words, 64 atoms a word, the lowest bits first.
pub fn state_of(alloc: Global, words: &[u64]) -> Result<State, AllocError>
    ensures { IfOk result (λ s. s ≡ words.now) }
{
    let words = Vec::from_slice(alloc, words)?;
    Ok(State::from_words(List::from_vec(words)))
}

/// One way in which an action comes out, at one unit and with weight 1.
pub fn outcome(alloc: Global, adds: &[u32], deletes: &[u32]) -> Result<Choice, AllocError>
    ensures { IfOk result (λ c. c ≡ road.outcome adds.now deletes.now) }
{
    let adds = Vec::from_slice(alloc, adds)?;
    let deletes = Vec::from_slice(alloc, deletes)?;
    Ok(Choice {
        weight: 1,
        cost: 1_000_000,
        adds: List::from_vec(adds),
        deletes: List::from_vec(deletes),
        guarded: List::from_vec(Vec::new(alloc)),
    })
}
