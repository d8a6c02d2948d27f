//! The memory of a server.

ghost use Rattle.std.specs.Prelude.{◌≡◌, ◌≤◌, ◌<◌, ◌+◌, ◌^◌, ℕ, length, IfOk};
ghost use Rattle.bound_core.specs.Core.{width};
ghost use Rattle.policy_server.specs.Replies.{act_text};
ghost use Rattle.policy_server.specs.Parts.{IsBufferOf};

use crate::byte_buffer::ByteBuffer;
use crate::limits::MOST_LINE;
use ground_model::{GroundProblem, List, State};
use std::alloc::{AllocError, Global};
use std::marker::Model;

/// How many bytes the line of an interval takes without its act, at most.
const MOST_AMOUNTS: usize = 60;

/// What a server writes to, so that it takes no memory while it serves: a line, the text of an atom, the
/// state that is asked for, and an answer. Contracts see the line that was taken last, the words of the state,
/// and for how many bytes of an answer there is room.
#[derive(Drop)]
pub struct QueryBuffer {
    pub(crate) line: ByteBuffer,
    pub(crate) text: ByteBuffer,
    pub(crate) state: State,
    pub(crate) reply: ByteBuffer,
}

impl Model for QueryBuffer {
    ghost use Rattle.std.specs.Prelude.{◌≡◌, length};
    ghost use Rattle.policy_server.specs.declared.limits.TheConstants.{MOST_LINE};
    ghost use Rattle.policy_server.specs.Parts.{BufferView, IsTextRoom};

    ghost Value = { BufferView };

    ghost view = { λ b. record {
      line = b.line.bytes;
      width = length b.state;
      room = b.reply.room;
    } };

    ghost invariant = { λ b. (b.line.room ≡ MOST_LINE) × IsTextRoom b.text };
}

/// A state of the problem's length.
fn blank_state(alloc: Global, problem: &GroundProblem) -> Result<State, AllocError>
    ensures { IfOk result (λ state. length state ≡ width problem.now) }
{
    let words = problem.atoms().len().div_ceil(64).max(1);
    let words = vec![in alloc; 0u64; words]?;
    Ok(State::from_words(List::from_vec(words)))
}

/// The most bytes of an act.
fn most_act(problem: &GroundProblem) -> usize
    ensures long { (code : ℕ) → length (act_text problem.now code) ≤ result }
    ensures within { result < 2 ^ 63 }
{
    let mut most = 7;
    for action in problem.actions() {
        most = most.max(action.name.as_slice().len());
    }
    most
}

impl QueryBuffer {
    /// The memory of a server of this problem. It is refused for want of memory alone.
    pub fn make(alloc: Global, problem: &GroundProblem) -> Result<Self, AllocError>
        ensures { IfOk result (IsBufferOf problem.now) }
    {
        Ok(QueryBuffer {
            line: ByteBuffer::make(alloc, MOST_LINE)?,
            text: ByteBuffer::make(alloc, 2 * MOST_LINE)?,
            state: blank_state(alloc, problem)?,
            reply: ByteBuffer::make(alloc, MOST_AMOUNTS + most_act(problem))?,
        })
    }
}
