//! The states of rows.

ghost use Rattle.std.specs.Prelude.{◌≡◌, ◌<◌, IfOk, OnOk, length};
ghost use Rattle.std.specs.List.{All};
ghost use Rattle.certificate_check.specs.Claims.{numbered, numbers_of};
ghost use Rattle.ground_model.specs.Packed.{words_for};
ghost use Rattle.ground_step.specs.Atoms.{state_of};

use certificate::Text;
use ground_model::{GroundProblem, List, State};
use ground_step::{atom_number, state_of_atoms};
use std::alloc::{AllocError, Global};

/// Room for the state of a row.
#[derive(Drop)]
pub(crate) struct Room {
    pub numbers: Vec<u32>,
    pub state: State,
}

impl Room {
    /// Room for the states of a problem.
    pub fn new(alloc: Global, problem: &GroundProblem) -> Result<Self, AllocError>
        ensures { IfOk result (λ room. length room.state ≡ words_for (length problem.now.atoms)) }
    {
        let width = problem.atoms().len().div_ceil(64).max(1);
        let words = vec![in alloc; 0u64; width]?;
        Ok(Room {
            numbers: Vec::new(alloc),
            state: State::from_words(List::from_vec(words)),
        })
    }
}

/// The numbers of the atoms with these texts; None where the problem has no such atom.
pub(crate) fn numbers_of(
    alloc: Global,
    problem: &GroundProblem,
    texts: &[Text],
) -> Result<Vec<Option<u32>>, AllocError>
    ensures { IfOk result (λ numbers. numbers.items ≡ numbered problem.now.atoms texts.now) }
{
    let mut numbers = Vec::with_capacity(alloc, texts.len())?;
    for text in texts {
        numbers.push(atom_number(problem, text.as_slice()))?;
    }
    Ok(numbers)
}

/// Puts the problem's numbers of a row's atoms in place of the numbers that stand there.
fn take_numbers(
    into: &mut Vec<u32>,
    numbers: &[Option<u32>],
    atoms: &[u32],
) -> Result<(), AllocError>
    requires { All (λ i. i < length numbers.now) atoms.now }
    ensures { OnOk result (into.new.items ≡ numbers_of numbers.now atoms.now) }
{
    into.clear();
    for atom in atoms {
        if let Some(number) = numbers[*atom as usize] {
            into.push(number)?;
        }
    }
    Ok(())
}

/// Writes the state of a row.
pub(crate) fn write_state(
    numbers: &[Option<u32>],
    atoms: &[u32],
    room: &mut Room,
) -> Result<(), AllocError>
    requires { All (λ i. i < length numbers.now) atoms.now }
    ensures state { OnOk result (room.new.state
        ≡ state_of (numbers_of numbers.now atoms.now) (length room.old.state)) }
    ensures long { OnOk result (length room.new.state ≡ length room.old.state) }
{
    take_numbers(&mut room.numbers, numbers, atoms)?;
    state_of_atoms(&room.numbers, &mut room.state);
    Ok(())
}
