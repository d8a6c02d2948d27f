//! The tire problem of `specs/Tire.antt`.

ghost use Rattle.std.specs.Prelude.{◌≡◌, IfOk};
ghost use Rattle.sample_problems.specs.Tire as road;

use crate::parts::{outcome, state_of};
use ground_model::{GroundAction, GroundCondition, GroundProblem, List, SharedList, Start, Text};
use std::alloc::{AllocError, Global};

fn both(alloc: Global, first: u32, second: u32) -> Result<GroundCondition, AllocError>
    ensures { IfOk result (λ c. c ≡ road.both first second) }
{
    let parts = [GroundCondition::Atom(first), GroundCondition::Atom(second)];
    Ok(GroundCondition::All(List::from_vec(Vec::from_array(alloc, parts)?)))
}

fn move_car(alloc: Global, name: &[u8], from: u32, to: u32) -> Result<GroundAction, AllocError>
    ensures { IfOk result (λ a. a ≡ road.move name.now from to) }
{
    let stays = outcome(alloc, &[to], &[from])?;
    let flat = outcome(alloc, &[to], &[0, from])?;
    Ok(GroundAction {
        name: Text::from_slice(alloc, name)?,
        condition: both(alloc, from, 0)?,
        choices: SharedList::from_vec(Vec::from_array(alloc, [stays, flat])?)?,
        den: 2,
    })
}

fn change_tire(alloc: Global, name: &[u8], spare: u32, car: u32) -> Result<GroundAction, AllocError>
    ensures { IfOk result (λ a. a ≡ road.change name.now spare car) }
{
    let changes = outcome(alloc, &[0], &[spare])?;
    Ok(GroundAction {
        name: Text::from_slice(alloc, name)?,
        condition: both(alloc, spare, car)?,
        choices: SharedList::from_vec(Vec::from_array(alloc, [changes])?)?,
        den: 1,
    })
}

fn tire_actions(alloc: Global) -> Result<List<GroundAction>, AllocError>
    ensures { IfOk result (λ actions. actions ≡ road.actions) }
{
    let actions = Vec::from_array(
        alloc,
        [
            move_car(alloc, b"(move-car l1 l2)", 4, 5)?,
            move_car(alloc, b"(move-car l2 l3)", 5, 6)?,
            change_tire(alloc, b"(changetire l1)", 1, 4)?,
            change_tire(alloc, b"(changetire l2)", 2, 5)?,
            change_tire(alloc, b"(changetire l3)", 3, 6)?,
        ],
    )?;
    Ok(List::from_vec(actions))
}

fn tire_atoms(alloc: Global) -> Result<List<Text>, AllocError>
    ensures { IfOk result (λ atoms. atoms ≡ road.atoms) }
{
    let atoms = Vec::from_array(
        alloc,
        [
            Text::from_slice(alloc, b"(not-flattire)")?,
            Text::from_slice(alloc, b"(spare-in l1)")?,
            Text::from_slice(alloc, b"(spare-in l2)")?,
            Text::from_slice(alloc, b"(spare-in l3)")?,
            Text::from_slice(alloc, b"(vehicle-at l1)")?,
            Text::from_slice(alloc, b"(vehicle-at l2)")?,
            Text::from_slice(alloc, b"(vehicle-at l3)")?,
        ],
    )?;
    Ok(List::from_vec(atoms))
}

/// The triangle tire world on a road of three places, with a spare at the second one. A move costs one unit and
/// makes the tire flat with chance 1/2; giving up costs a hundred units.
pub fn tire(alloc: Global) -> Result<GroundProblem, AllocError>
    ensures { IfOk result (λ g. g ≡ road.tire) }
{
    let start = Start {
        weight: 1,
        state: state_of(alloc, &[21])?,
    };
    let starts = List::from_vec(Vec::from_array(alloc, [start])?);
    let goal = GroundCondition::Atom(6);
    let (atoms, actions) = (tire_atoms(alloc)?, tire_actions(alloc)?);
    Ok(GroundProblem::new(atoms, 100_000_000, starts, 1, goal, actions))
}
