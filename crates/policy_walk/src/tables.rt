//! The entries of a certificate's tables, as a ground problem numbers them.

ghost use Rattle.std.specs.Prelude.{◌≡◌, IfOk, length};
ghost use Rattle.certificate.specs.Content.{IsAct};
ghost use Rattle.certificate_check.specs.Claims.{act_by, numbered, taken};
ghost use Rattle.decision_process.specs.Readings.{action_of};
ghost use Rattle.ground_step.specs.Names.{action_names};
ghost use Rattle.policy_walk.specs.Tables.{AreTablesOf};

use certificate::{Act, Certificate, Text};
use ground_model::GroundProblem;
use ground_step::{ActionNames, atom_number};
use std::alloc::{AllocError, Global};

/// The numbers of the atoms, and the codes of the actions, of a certificate's tables; None where the problem
/// does not have them.
#[derive(Drop)]
pub(crate) struct Tables {
    pub atoms: Vec<Option<u32>>,
    pub acts: Vec<Option<u16>>,
}

/// The numbers of the atoms with these texts.
fn atom_numbers(
    alloc: Global,
    problem: &GroundProblem,
    texts: &[Text],
) -> Result<Vec<Option<u32>>, AllocError>
    ensures { IfOk result (λ numbers. numbers.items ≡ numbered problem.now.atoms texts.now) }
{
    let mut numbers = Vec::with_capacity(alloc, texts.len())?;
    for text in texts {
        numbers.push(atom_number(problem, text.as_slice()))?;
    }
    Ok(numbers)
}

/// The codes of the actions with these names.
fn action_codes(
    alloc: Global,
    problem: &GroundProblem,
    texts: &[Text],
) -> Result<Vec<Option<u16>>, AllocError>
    ensures { IfOk result (λ codes. codes.items ≡ numbered (action_names problem.now) texts.now) }
{
    let names = ActionNames::new(alloc, problem)?;
    let mut codes = Vec::with_capacity(alloc, texts.len())?;
    for text in texts {
        codes.push(names.number(text.as_slice()))?;
    }
    Ok(codes)
}

/// The tables of a certificate. They are refused for want of memory alone.
pub(crate) fn tables_of(
    alloc: Global,
    problem: &GroundProblem,
    certificate: &Certificate,
) -> Result<Tables, AllocError>
    ensures { IfOk result (AreTablesOf problem.now certificate.now) }
{
    let atoms = atom_numbers(alloc, problem, certificate.atoms())?;
    let acts = action_codes(alloc, problem, certificate.acts())?;
    Ok(Tables { atoms, acts })
}

/// The code of the action that an act takes, if it takes one.
pub(crate) fn action_taken(codes: &[Option<u16>], act: Act) -> Option<u16>
    requires { IsAct (length codes.now) act }
    ensures { result ≡ action_of (taken (act_by codes.now act)) }
{
    match act {
        Act::GiveUp | Act::Goal => None,
        Act::Do(place) => codes[place as usize],
    }
}
