//! Two coins.

ghost use Rattle.std.specs.Prelude.{◌≡◌, IfOk};
ghost use Rattle.ground_model.specs.Coin as example;
ghost use Rattle.sample_problems.specs.SureCoin as sure;

use crate::parts::{outcome, state_of};
use ground_model::{GroundAction, GroundCondition, GroundProblem, List, SharedList, Start, Text};
use std::alloc::{AllocError, Global};

/// The coin of `ground_model`: it lies tails up, a flip costs one unit and shows heads or tails, and
/// giving up costs ten units.
pub fn coin(alloc: Global) -> Result<GroundProblem, AllocError>
    ensures { IfOk result (λ g. g ≡ example.coin) }
{
    let sides = Vec::from_array(
        alloc,
        [outcome(alloc, &[0], &[])?, outcome(alloc, &[], &[])?],
    )?;
    let flip = GroundAction {
        name: Text::from_slice(alloc, b"(flip)")?,
        condition: GroundCondition::True,
        choices: SharedList::from_vec(sides)?,
        den: 2,
    };
    let start = Start {
        weight: 1,
        state: state_of(alloc, &[0])?,
    };
    let atoms = Vec::from_array(alloc, [Text::from_slice(alloc, b"(heads)")?])?;
    let starts = Vec::from_array(alloc, [start])?;
    let actions = Vec::from_array(alloc, [flip])?;
    Ok(GroundProblem::new(
        List::from_vec(atoms),
        10_000_000,
        List::from_vec(starts),
        1,
        GroundCondition::Atom(0),
        List::from_vec(actions),
    ))
}

/// A coin that shows heads at the start in three cases of ten, and surely once it is turned.
pub fn sure_coin(alloc: Global) -> Result<GroundProblem, AllocError>
    ensures { IfOk result (λ g. g ≡ sure.sure_coin) }
{
    let sides = Vec::from_array(alloc, [outcome(alloc, &[0], &[])?])?;
    let turn = GroundAction {
        name: Text::from_slice(alloc, b"(flip)")?,
        condition: GroundCondition::True,
        choices: SharedList::from_vec(sides)?,
        den: 1,
    };
    let heads = Start {
        weight: 3,
        state: state_of(alloc, &[1])?,
    };
    let tails = Start {
        weight: 7,
        state: state_of(alloc, &[0])?,
    };
    let atoms = Vec::from_array(alloc, [Text::from_slice(alloc, b"(heads)")?])?;
    let starts = Vec::from_array(alloc, [heads, tails])?;
    let actions = Vec::from_array(alloc, [turn])?;
    Ok(GroundProblem::new(
        List::from_vec(atoms),
        10_000_000,
        List::from_vec(starts),
        10,
        GroundCondition::Atom(0),
        List::from_vec(actions),
    ))
}
