//! Where the codes of actions that are enough are written.

ghost use Rattle.std.specs.Prelude.{◌≡◌, ◌≤◌, length, IfOk};

use crate::OpenCodes;
use ground_model::GroundProblem;
use std::alloc::{AllocError, Global};
use std::marker::Model;

/// Room for codes of a problem's open actions, which is made once for many states. Contracts see the codes, and
/// for how many there is room.
#[derive(Drop)]
pub struct DistinctCodes {
    pub(super) open: OpenCodes,
}

impl Model for DistinctCodes {
    ghost use Rattle.applicable_actions.specs.Codes.{Codes};

    ghost Value = { Codes };

    ghost view = { λ d. d.open };
}

impl DistinctCodes {
    /// Room for the codes of this problem's actions. It is refused for want of memory alone.
    pub fn new(alloc: Global, problem: &GroundProblem) -> Result<Self, AllocError>
        ensures { IfOk result (λ codes. length problem.now.actions ≤ codes.room) }
    {
        let open = OpenCodes::new(alloc, problem)?;
        Ok(DistinctCodes { open })
    }

    /// The codes, in rising order.
    pub fn as_slice(&self) -> &[u16]
        ensures { result.now ≡ self.now.codes }
    {
        self.open.as_slice()
    }
}
