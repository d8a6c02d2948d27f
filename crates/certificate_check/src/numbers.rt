//! The entries of a certificate's tables, as a ground problem numbers them.

ghost use Rattle.std.specs.Prelude.{◌≡◌, IfOk};
ghost use Rattle.ground_step.specs.Names.{action_names};
ghost use Rattle.certificate_check.specs.Claims.{numbered};

use ground_model::{GroundProblem, Text};
use ground_step::{ActionNames, atom_number};
use std::alloc::{AllocError, Global};

/// The numbers of the atoms with these texts; None where the problem has no such atom.
pub(crate) fn atom_numbers(
    alloc: Global,
    problem: &GroundProblem,
    texts: &[Text],
) -> Result<Vec<Option<u32>>, AllocError>
    ensures { IfOk result (λ numbers. numbers.items ≡ numbered problem.now.atoms texts.now) }
{
    let mut numbers = Vec::with_capacity(alloc, texts.len())?;
    for text in texts {
        numbers.push(atom_number(problem, text.as_slice()))?;
    }
    Ok(numbers)
}

/// The codes of the actions with these names; None where the problem has no such action.
pub(crate) fn action_codes(
    alloc: Global,
    problem: &GroundProblem,
    texts: &[Text],
) -> Result<Vec<Option<u16>>, AllocError>
    ensures { IfOk result (λ codes. codes.items ≡ numbered (action_names problem.now) texts.now) }
{
    let names = ActionNames::new(alloc, problem)?;
    let mut codes = Vec::with_capacity(alloc, texts.len())?;
    for text in texts {
        codes.push(names.number(text.as_slice()))?;
    }
    Ok(codes)
}
