//! Exploring, level by level.

ghost use Rattle.std.specs.Prelude.{◌<◌, ◌≤◌, ◌^◌, IfOk};
ghost use Rattle.ground_model.specs.declared.limits.TheConstants.{MOST_STARTS};
ghost use Rattle.trial_workers.specs.declared.explorer.explored.TheConstants.{MOST_SWEPT};
ghost use Rattle.trial_workers.specs.explorer.Explored.{IsExplored, IsAnswer};

use crate::explorer::explored::Explored;
use crate::explorer::levels::Levels;
use crate::explorer::listing::Listing;
use crate::explorer::scratch::Scratch;
use applicable_actions::DistinctActions;
use std::alloc::{AllocError, Global};

/// The answer of these states.
fn answer(
    alloc: Global,
    listing: Listing,
    swept: usize,
    depth: Option<u32>,
) -> Result<Explored, AllocError>
    requires { swept < 2 ^ 32 }
    ensures { IfOk result (IsAnswer listing swept depth) }
{
    let states = listing.into_list(alloc)?;
    Ok(Explored {
        states,
        swept: swept as u32,
        depth,
    })
}

/// Lists levels as long as at most `most` states are listed.
fn list_levels(
    alloc: Global,
    index: &DistinctActions<'_>,
    most: usize,
) -> Result<Explored, AllocError>
    requires enough { MOST_STARTS ≤ most }
    requires few { most ≤ MOST_SWEPT }
    ensures { IfOk result (IsExplored index.now most) }
{
    let problem = index.problem();
    let mut scratch = Scratch::new(alloc, problem)?;
    let mut levels = Levels::new(alloc, problem)?;
    while levels.next < levels.listing.len() {
        let listed = levels.expand_next(index, &mut scratch, most)?;
        if listed > most {
            let front = levels.front;
            return answer(alloc, levels.listing, front.level, Some(front.depth));
        }
    }
    let all = levels.listing.len();
    answer(alloc, levels.listing, all, None)
}

/// Lists the states that can be reached, level by level, until there are no more or more than
/// `sweep_states` of them are listed. A level has the states that the level before first leads to, and the
/// first level the starts. It is refused for want of memory alone.
///
/// Each state is looked up by hash, and open actions that are enough are found by the index of its problem, so the
/// time is that of the successors that are formed. An idle choice forms none.
pub fn explore(
    alloc: Global,
    index: &DistinctActions<'_>,
    sweep_states: u32,
) -> Result<Explored, AllocError>
    requires enough { MOST_STARTS ≤ sweep_states }
    requires few { sweep_states ≤ MOST_SWEPT }
    ensures { IfOk result (IsExplored index.now sweep_states) }
{
    list_levels(alloc, index, sweep_states as usize)
}
