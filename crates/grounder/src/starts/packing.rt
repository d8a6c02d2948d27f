//! Choices as packed states.

ghost use Rattle.std.specs.Prelude.{◌≡◌, ◌<◌, map, IfOk};
ghost use Rattle.ground_model.specs.Packed.{words_for};
ghost use Rattle.ground_meaning.specs.refusals.Starts.{packed_start};
ghost use Rattle.grounder.specs.starts.Growing.{start_of};

use ground_model::{Choice, List, Start, State};
use ground_step::state_of_atoms;
use outcome_dist::{Draft, narrowed};
use std::alloc::{AllocError, Global};

/// How many words give so many atoms a bit.
fn words_for(count: usize) -> usize
    ensures { result ≡ words_for count }
{
    count.div_ceil(64).max(1)
}

/// The initial state of a choice, for so many atoms.
fn start_of(alloc: Global, count: usize, choice: &Choice) -> Result<Start, AllocError>
    ensures { IfOk result (λ s. s ≡ start_of count choice.now) }
{
    let words = vec![in alloc; 0; words_for(count)]?;
    let mut state = State::from_words(List::from_vec(words));
    state_of_atoms(choice.adds.as_slice(), &mut state);
    Ok(Start {
        weight: choice.weight,
        state,
    })
}

/// The initial states of choices in lowest terms. The choices cost nothing, so none is too dear, and it is
/// refused for want of memory alone.
pub(super) fn packed_starts(
    alloc: Global,
    count: usize,
    drafts: Vec<Draft>,
    divisor: u64,
) -> Result<List<Start>, AllocError>
    requires { 0 < divisor }
    ensures { IfOk result (λ l. l ≡ map (packed_start count divisor) drafts.items) }
{
    let Ok(choices) = narrowed(alloc, drafts, 0, divisor) else {
        return Err(AllocError);
    };
    let mut starts = Vec::with_capacity(alloc, choices.as_slice().len())?;
    for choice in choices.as_slice() {
        starts.push(start_of(alloc, count, choice)?)?;
    }
    Ok(List::from_vec(starts))
}
