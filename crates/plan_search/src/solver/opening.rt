//! How a search begins.

ghost use Rattle.std.specs.Prelude.{◌≡◌, ◌≤◌, None, IfOk, List, length};
ghost use Rattle.std.specs.Arc.{arc_value};
ghost use Rattle.ground_model.specs.Packed.{State};
ghost use Rattle.word_table.specs.Seen.{IsOf};
ghost use Rattle.bellman_backup.specs.Kept.{KeepsStates};
ghost use Rattle.trial_workers.specs.Workers.{HasListed};
ghost use Rattle.trial_workers.specs.Crews.{IsCrewOf, IsNewCrew, FirstHas};
ghost use Rattle.trial_workers.specs.declared.crew.TheConstants.{MOST_WORKERS};
ghost use Rattle.plan_search.specs.solver.Opened.{AreSizes, IsOpened, room_for};

use crate::solver::sizes::Sizes;
use applicable_actions::DistinctActions;
use bellman_backup::keep_near;
use ground_model::{GroundProblem, State};
use kept_transitions::Kept;
use std::alloc::{AllocError, Global};
use std::sync::Arc;
use trial_workers::{Crew, Explored, Extent, explore};
use word_table::{Pass, Words, make};

/// What a search has before its first round.
#[derive(Drop)]
pub struct Opening<'p> {
    /// The table.
    pub words: Words<'p>,
    /// A pass over it that has the states near the starts, each with its place as its id, and all the claim rights.
    pub pass: Pass,
    /// How far these states go.
    pub extent: Extent,
    /// The problem's actions, by an index.
    pub index: Arc<DistinctActions<'p>, Global>,
    /// Their transitions, as far as there was room for them, which rest on what the pass has noted.
    pub near: Arc<Kept, Global>,
}

/// For how many states there is an id: for those that are listed, where these are all that can be reached, and else
/// for all that the table has room for in any case.
fn room_for(explored: &Explored, states: u32) -> u32
    requires few { length explored.now.states ≤ states }
    ensures { let listed = length explored.now.states
        in result ≡ room_for explored.now.depth listed states }
{
    match explored.depth {
        None => explored.states.as_slice().len() as u32,
        Some(_) => states,
    }
}

/// Lists the states near the starts, makes a table of them with a claim right for each worker, and keeps the
/// transitions of those that are swept. The table has an id for each worker, and one for each of `states`, or for each
/// state that can be reached, where all of them are listed. It is refused for want of memory alone.
///
/// Rounds are made over the table by a crew that has the pass. Before the crew is made another pass may be split off
/// without rights (`word_table`'s `split`), for whoever looks on, and be joined behind the last round.
pub fn open<'p>(
    alloc: Global,
    problem: &'p GroundProblem,
    sizes: &Sizes,
) -> Result<Opening<'p>, AllocError>
    requires { AreSizes sizes.now }
    ensures { IfOk result (IsOpened problem.now sizes.now) }
{
    let index = Arc::new(alloc, DistinctActions::new(alloc, problem)?)?;
    let explored = explore(alloc, &index, sizes.sweep_states)?;
    let ids = room_for(&explored, sizes.states) + sizes.workers;
    let states = explored.states.as_slice();
    let (words, mut pass) = make(alloc, problem, ids, sizes.workers, states)?;
    let Explored {
        states,
        swept,
        depth,
    } = explored;
    // The list ends here: the table has the states, and what is kept takes the memory.
    drop(states);
    let near = keep_near(alloc, &words, &mut pass, &index, swept)?;
    let near = Arc::new(alloc, near)?;
    Ok(Opening {
        words,
        pass,
        extent: Extent { swept, depth },
        index,
        near,
    })
}

/// A crew of so many workers that has the pass, for trials of at most `depth` turns. The workers share the index and
/// the transitions `near`. It is refused for want of memory alone, and then the pass ends.
pub fn make_crew<'p>(
    alloc: Global,
    words: &Words<'p>,
    pass: Pass,
    index: &Arc<DistinctActions<'p>, Global>,
    near: &Arc<Kept, Global>,
    workers: u32,
    depth: u32,
) -> Result<Crew<'p>, AllocError>
    requires here { IsOf words.now pass }
    requires free { pass.view.spare ≡ None }
    requires rights { pass.view.rights ≡ workers }
    requires index { arc_value index.now ≡ words.now.problem }
    requires near { KeepsStates words.now.problem pass.view (arc_value near.now) }
    requires workers { (1 ≤ workers) × (workers ≤ MOST_WORKERS) }
    ensures made { IfOk result (IsNewCrew words.now.problem pass workers depth) }
    ensures crew { IfOk result (IsCrewOf words.now depth) }
    ensures has { (states : List State) → HasListed states pass.view
        → IfOk result (FirstHas states) }
{
    let Ok(crew) = Crew::make(alloc, words, pass, index, near, workers, depth) else {
        return Err(AllocError);
    };
    Ok(crew)
}
