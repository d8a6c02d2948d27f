//! The states of the rows of a certificate.

ghost use Rattle.std.specs.Prelude.{◌≡◌, ◌<◌, IfOk, length, map};
ghost use Rattle.std.specs.List.{All};
ghost use Rattle.certificate_check.specs.Claims.{numbered, numbers_of, row_state, IsBalancedFor};
ghost use Rattle.ground_model.specs.Packed.{words_for};
ghost use Rattle.ground_step.specs.Atoms.{state_of};
ghost use Rattle.ground_step.specs.Names.{action_names};

use certificate::{Certificate, Text};
use ground_model::{GroundProblem, List, State};
use ground_step::{ActionNames, atom_number, state_of_atoms};
use indexmap::IndexSet;
use std::alloc::{AllocError, Global};

/// The numbers of the atoms with these texts; None where the problem has no such atom.
fn atom_numbers(
    alloc: Global,
    problem: &GroundProblem,
    texts: &[Text],
) -> Result<Vec<Option<u32>>, AllocError>
    ensures { IfOk result (λ numbers. numbers.items ≡ numbered problem.now.atoms texts.now) }
{
    let mut numbers = Vec::with_capacity(alloc, texts.len())?;
    for text in texts {
        numbers.push(atom_number(problem, text.as_slice()))?;
    }
    Ok(numbers)
}

/// The codes of the actions with these names; None where the problem has no such action.
pub(crate) fn action_codes(
    alloc: Global,
    problem: &GroundProblem,
    texts: &[Text],
) -> Result<Vec<Option<u16>>, AllocError>
    ensures { IfOk result (λ codes. codes.items ≡ numbered (action_names problem.now) texts.now) }
{
    let names = ActionNames::new(alloc, problem)?;
    let mut codes = Vec::with_capacity(alloc, texts.len())?;
    for text in texts {
        codes.push(names.number(text.as_slice()))?;
    }
    Ok(codes)
}

/// The problem's numbers of a row's atoms.
fn numbers_of(alloc: Global, numbers: &[Option<u32>], atoms: &[u32]) -> Result<Vec<u32>, AllocError>
    requires { All (λ i. i < length numbers.now) atoms.now }
    ensures { IfOk result (λ own. own.items ≡ numbers_of numbers.now atoms.now) }
{
    let mut own = Vec::with_capacity(alloc, atoms.len())?;
    for atom in atoms {
        if let Some(number) = numbers[*atom as usize] {
            own.push(number)?;
        }
    }
    Ok(own)
}

/// A state with a bit for each atom of a problem.
fn blank(alloc: Global, problem: &GroundProblem) -> Result<State, AllocError>
    ensures { IfOk result (λ state. length state ≡ words_for (length problem.now.atoms)) }
{
    let width = problem.atoms().len().div_ceil(64).max(1);
    let words = vec![in alloc; 0u64; width]?;
    Ok(State::from_words(List::from_vec(words)))
}

/// The state of a row with these atoms, and no other.
fn state_of_row(
    alloc: Global,
    problem: &GroundProblem,
    numbers: &[Option<u32>],
    atoms: &[u32],
) -> Result<State, AllocError>
    requires { All (λ i. i < length numbers.now) atoms.now }
    ensures { IfOk result (λ state. state
        ≡ state_of (numbers_of numbers.now atoms.now) (words_for (length problem.now.atoms))) }
{
    let own = numbers_of(alloc, numbers, atoms)?;
    let mut state = blank(alloc, problem)?;
    state_of_atoms(&own, &mut state);
    Ok(state)
}

/// The states of the rows of a certificate, in their order.
pub(crate) fn row_states(
    alloc: Global,
    problem: &GroundProblem,
    certificate: &Certificate,
) -> Result<IndexSet<State>, AllocError>
    requires { IsBalancedFor problem.now certificate.now }
    ensures { IfOk result
        (λ set. set.keys ≡ map (row_state problem.now certificate.now) certificate.now.rows) }
{
    let table = atom_numbers(alloc, problem, certificate.atoms())?;
    let numbers = table.as_slice();
    let rows = certificate.rows();
    let mut states = IndexSet::with_capacity(alloc, rows.len())?;
    for place in 0..rows.len() {
        let state = state_of_row(alloc, problem, numbers, rows.row(place).atoms)?;
        let Ok(_) = states.insert(state) else {
            return Err(AllocError);
        };
    }
    Ok(states)
}
