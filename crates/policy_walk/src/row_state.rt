//! The states of rows.

ghost use Rattle.std.specs.Prelude.{◌≡◌, ◌<◌, IfOk, OnOk, length};
ghost use Rattle.std.specs.List.{All};
ghost use Rattle.certificate_check.specs.Claims.{numbers_of};
ghost use Rattle.ground_model.specs.Packed.{words_for};
ghost use Rattle.ground_step.specs.Atoms.{state_of};
ghost use Rattle.policy_walk.specs.Buffers.{IsStateOf};

use ground_model::{GroundProblem, List, State};
use ground_step::state_of_atoms;
use std::alloc::{AllocError, Global};

/// A state of as many words as the states of a problem have.
pub(crate) fn blank_state(alloc: Global, problem: &GroundProblem) -> Result<State, AllocError>
    ensures { IfOk result (IsStateOf problem.now) }
{
    let width = problem.atoms().len().div_ceil(64).max(1);
    let words = vec![in alloc; 0u64; width]?;
    Ok(State::from_words(List::from_vec(words)))
}

/// Puts the problem's numbers of a row's atoms in the place of the numbers that stand there.
fn take_numbers(
    into: &mut Vec<u32>,
    numbers: &[Option<u32>],
    atoms: &[u32],
) -> Result<(), AllocError>
    requires { All (λ i. i < length numbers.now) atoms.now }
    ensures { OnOk result (into.new.items ≡ numbers_of numbers.now atoms.now) }
{
    into.clear();
    for atom in atoms {
        if let Some(number) = numbers[*atom as usize] {
            into.push(number)?;
        }
    }
    Ok(())
}

/// The state of a row. Its numbers are written into `room`.
pub(crate) fn row_state(
    alloc: Global,
    problem: &GroundProblem,
    numbers: &[Option<u32>],
    atoms: &[u32],
    room: &mut Vec<u32>,
) -> Result<State, AllocError>
    requires { All (λ i. i < length numbers.now) atoms.now }
    ensures { IfOk result (λ state. state
        ≡ state_of (numbers_of numbers.now atoms.now) (words_for (length problem.now.atoms))) }
{
    take_numbers(room, numbers, atoms)?;
    let mut state = blank_state(alloc, problem)?;
    state_of_atoms(room, &mut state);
    Ok(state)
}
