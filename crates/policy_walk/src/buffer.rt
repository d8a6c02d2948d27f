//! What a walk needs, so that it takes no memory.

ghost use Rattle.std.specs.Prelude.{IfOk};
ghost use Rattle.policy_walk.specs.Buffers.{IsBufferOf};

use crate::row_state::blank_state;
use ground_model::{GroundProblem, State};
use std::alloc::{AllocError, Global};

/// Room for a walk: the state in which it stands and the next one.
#[derive(Drop)]
pub struct WalkBuffer {
    pub(crate) state: State,
    pub(crate) next: State,
}

/// Room for walks of a problem. It is refused for want of memory alone.
pub fn make_buffer(alloc: Global, problem: &GroundProblem) -> Result<WalkBuffer, AllocError>
    ensures { IfOk result (IsBufferOf problem.now) }
{
    let state = blank_state(alloc, problem)?;
    let next = blank_state(alloc, problem)?;
    Ok(WalkBuffer { state, next })
}
