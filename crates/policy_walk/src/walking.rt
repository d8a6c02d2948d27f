//! Walks under a policy.

ghost use Rattle.std.specs.Prelude.{◌≡◌, ◌+◌, ◌<◌, ◌≤◌, ◌^◌, Some, length};
ghost use Rattle.brtdp_trial.specs.Draws.{draw_of};
ghost use Rattle.decision_process.specs.Policies.{IsPolicy};
ghost use Rattle.ground_model.specs.declared.limits.TheConstants.{MOST_CHOICE_COST};
ghost use Rattle.ground_model.specs.Invariant.{IsGroundProblem};
ghost use Rattle.ground_model.specs.Steps.{ground_process, ground_starts};
ghost use Rattle.policy_walk.specs.declared.limits.TheConstants.{MOST_STEPS, MOST_WALK_COST};
ghost use Rattle.policy_walk.specs.Buffers.{IsBufferOf, IsStateOf};
ghost use Rattle.policy_walk.specs.Policies.{policy_by};
ghost use Rattle.policy_walk.specs.Runs.{IsRunOf};
ghost use Rattle.policy_walk.specs.Going.{GoesBy, StartsBy};
ghost use Rattle.policy_walk.specs.Walks.{walk};

use crate::buffer::WalkBuffer;
use crate::drawing::drawn;
use crate::ends::{Walk, WalkEnd};
use crate::policy::Policy;
use brtdp_trial::Draws;
use ground_model::{GroundProblem, State};
use ground_step::{apply, is_goal};
use std::mem::swap;

/// Writes words into a state of as many.
fn copy_words(words: &[u64], into: &mut State)
    requires { length into.old ≡ length words.now }
    ensures { into.new ≡ words.now }
{
    for (place, word) in words.iter().enumerate() {
        into.set_word(place, *word);
    }
}

/// Writes the drawn start.
fn enter(problem: &GroundProblem, draws: &mut Draws, state: &mut State)
    requires few { draws.old.next < 2 ^ 33 }
    requires state { IsStateOf problem.now state.old }
    ensures draws { draws.new ≡ record draws.old { next = draws.old.next + 1 } }
    ensures state { IsStateOf problem.now state.new }
    ensures start { let r = draw_of draws.old.seed draws.old.number draws.old.next
        in StartsBy problem.now r state.new }
    ensures valid { IsGroundProblem problem.now }
{
    let start = drawn(problem.starts(), problem.start_den(), draws.draw());
    copy_words(start.state.words(), state);
}

/// Goes to a drawn choice's state, and answers what the choice costs.
fn make_step(
    problem: &GroundProblem,
    action: u16,
    draws: &mut Draws,
    buffer: &mut WalkBuffer,
) -> u64
    requires action { action < length problem.now.actions }
    requires few { draws.old.next < 2 ^ 33 }
    requires buffer { IsBufferOf problem.now buffer.old }
    ensures draws { draws.new ≡ record draws.old { next = draws.old.next + 1 } }
    ensures buffer { IsBufferOf problem.now buffer.new }
    ensures within { result ≤ MOST_CHOICE_COST }
    ensures step { let r = draw_of draws.old.seed draws.old.number draws.old.next
        in GoesBy problem.now action r buffer.old.state buffer.new.state result }
{
    let action = &problem.actions()[action as usize];
    let choice = drawn(action.choices.as_slice(), action.den, draws.draw());
    let cost = apply(choice, &buffer.state, &mut buffer.next);
    swap(&mut buffer.state, &mut buffer.next);
    cost
}

/// The walk with this number in the world of a seed: from a drawn start the policy acts, and the outcome
/// of each step is drawn, until it comes to a goal, gives up, or has made so many steps. It takes no memory.
pub fn walk(
    problem: &GroundProblem,
    policy: &Policy,
    seed: u64,
    number: u64,
    steps: u32,
    buffer: &mut WalkBuffer,
) -> Walk
    requires policy { IsPolicy (ground_process problem.now) (policy_by policy.now) }
    requires few { steps ≤ MOST_STEPS }
    requires buffer { IsBufferOf problem.now buffer.old }
    ensures walk { let acts = policy_by policy.now
        in result ≡ walk problem.now acts (draw_of seed number) steps }
    ensures run { let p = ground_process problem.now in let starts = ground_starts problem.now
        in IsRunOf p starts (policy_by policy.now) steps result }
    ensures cost { result.cost ≤ MOST_WALK_COST }
    ensures buffer { IsBufferOf problem.now buffer.new }
{
    let mut draws = Draws::new(seed, number);
    enter(problem, &mut draws, &mut buffer.state);
    let (mut made, mut cost) = (0, 0);
    while !is_goal(problem, &buffer.state) {
        let Some(action) = policy.act(&buffer.state) else {
            return Walk {
                end: WalkEnd::GaveUp,
                steps: made,
                cost: cost + problem.penalty(),
            };
        };
        if made == steps {
            return Walk {
                end: WalkEnd::Open,
                steps: made,
                cost,
            };
        }
        cost += make_step(problem, action, &mut draws, buffer);
        made += 1;
    }
    Walk {
        end: WalkEnd::Goal,
        steps: made,
        cost,
    }
}
