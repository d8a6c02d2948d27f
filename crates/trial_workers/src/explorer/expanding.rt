//! The expansion of a state: the states that its open actions lead to. Actions that are enough lead to all of
//! them. An idle choice leads to the state itself, and forms no successor.

ghost use Rattle.std.specs.Prelude.{◌≡◌, ◌*◌, ◌<◌, ◌≤◌, ◌^◌, length, flat_map, Contains, OnOk};
ghost use Rattle.std.specs.List.{All};
ghost use Rattle.decision_process.specs.Levels.{nexts, successors};
ghost use Rattle.ground_model.specs.Packed.{words_for};
ghost use Rattle.ground_model.specs.Steps.{ground_process};
ghost use Rattle.trial_workers.specs.explorer.Found.{Grows, IsRoomFor};

use crate::explorer::listing::Listing;
use crate::explorer::scratch::Scratch;
use applicable_actions::{DistinctActions, enough_laws};
use ground_model::State;
use ground_step::is_goal;
use kept_transitions::{idle_law, is_idle};
use std::alloc::AllocError;

/// Lists what the choices of the action with this code lead to, in their order, until more than `most` states are
/// listed. An idle choice leads to the state itself, which is listed.
fn add_choices(
    index: &DistinctActions<'_>,
    code: u16,
    state: &State,
    next: &mut State,
    listing: &mut Listing,
    most: usize,
) -> Result<(), AllocError>
    requires code { code < length index.now.actions }
    requires fits { length next.old ≡ length state.now }
    requires room { length listing.old ≤ most }
    requires listed { Contains listing.old state.now }
    ensures grows { let found = nexts (ground_process index.now) code state.now
        in OnOk result (Grows most found listing.old listing.new) }
    ensures fits { length next.new ≡ length state.now }
{
    for choice in index.choices(code) {
        if listing.len() > most {
            return Ok(());
        }
        if is_idle(choice.choice()) {
            idle_law(state);
            continue;
        }
        choice.apply(state, next);
        listing.add(next)?;
    }
    Ok(())
}

/// Lists what the actions with these codes lead to, in their order, until more than `most` states are listed.
fn add_actions(
    index: &DistinctActions<'_>,
    codes: &[u16],
    state: &State,
    next: &mut State,
    listing: &mut Listing,
    most: usize,
) -> Result<(), AllocError>
    requires codes { All (λ k. k < length index.now.actions) codes.now }
    requires fits { length next.old ≡ length state.now }
    requires room { length listing.old ≤ most }
    requires listed { Contains listing.old state.now }
    ensures grows { let process = ground_process index.now
        in let found = flat_map (λ k. nexts process k state.now) codes.now
        in OnOk result (Grows most found listing.old listing.new) }
    ensures fits { length next.new ≡ length state.now }
{
    for code in codes {
        if listing.len() > most {
            return Ok(());
        }
        add_choices(index, *code, state, next, listing, most)?;
    }
    Ok(())
}

/// Lists the successors of a listed state, until more than `most` states are listed.
pub(super) fn expand(
    index: &DistinctActions<'_>,
    state: &State,
    scratch: &mut Scratch,
    listing: &mut Listing,
    most: usize,
) -> Result<(), AllocError>
    requires state { length state.now ≡ words_for (length index.now.atoms) }
    requires words { 64 * length state.now < 2 ^ 32 }
    requires scratch { IsRoomFor index.now scratch.old }
    requires room { length listing.old ≤ most }
    requires listed { Contains listing.old state.now }
    ensures grows { let found = successors (ground_process index.now) state.now
        in OnOk result (Grows most found listing.old listing.new) }
    ensures scratch { IsRoomFor index.now scratch.new }
{
    enough_laws();
    if is_goal(index.problem(), state) {
        return Ok(());
    }
    index.fill(state, &mut scratch.codes);
    add_actions(
        index,
        scratch.codes.as_slice(),
        state,
        &mut scratch.next,
        listing,
        most,
    )
}
