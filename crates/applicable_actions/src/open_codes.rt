//! Where the codes of open actions are written.

ghost use Rattle.std.specs.Prelude.{◌≡◌, ◌*◌, ◌≤◌, length, take, IfOk};
ghost use Rattle.ground_step.specs.Atoms.{true_atoms};

use ground_model::{GroundProblem, List, State};
use ground_step::true_atoms;
use std::alloc::{AllocError, Global};
use std::marker::Model;

/// Room for the codes of a problem's open actions, which is made once for many states. Contracts see the
/// codes, and for how many there is room.
#[derive(Drop)]
pub struct OpenCodes {
    /// One bit for each action, packed as atoms are.
    pub(crate) marks: State,
    pub(crate) codes: List<u16>,
    pub(crate) count: usize,
}

impl Model for OpenCodes {
    ghost use Rattle.std.specs.Prelude.{◌*◌, length, take};
    ghost use Rattle.applicable_actions.specs.Codes.{Codes, HasRoom};

    ghost Value = { Codes };

    ghost view = { λ o. record { room = 64 * length o.marks; codes = take o.count o.codes } };

    ghost invariant = { λ o. HasRoom o.marks o.codes o.count };
}

/// Writes the numbers of the marked bits in rising order, and answers how many they are.
pub(crate) fn write_codes(marks: &State, codes: &mut List<u16>) -> usize
    requires room { length codes.old ≡ 64 * length marks.now }
    requires few { length marks.now ≤ 1024 }
    ensures codes { take result codes.new ≡ true_atoms marks.now }
    ensures count { result ≤ length codes.new }
    ensures room { length codes.new ≡ length codes.old }
{
    let mut count = 0;
    for code in true_atoms(marks) {
        codes.set(count, code as u16);
        count += 1;
    }
    count
}

impl OpenCodes {
    /// Room for the codes of this problem's actions. It is refused for want of memory alone.
    pub fn new(alloc: Global, problem: &GroundProblem) -> Result<Self, AllocError>
        ensures { IfOk result (λ codes. length problem.now.actions ≤ codes.room) }
    {
        let words = problem.actions().len().div_ceil(64);
        let marks = vec![in alloc; 0u64; words]?;
        let codes = vec![in alloc; 0u16; 64 * words]?;
        Ok(OpenCodes {
            marks: State::from_words(List::from_vec(marks)),
            codes: List::from_vec(codes),
            count: 0,
        })
    }

    /// The codes, in rising order.
    pub fn as_slice(&self) -> &[u16]
        ensures { result.now ≡ self.now.codes }
    {
        &self.codes.as_slice()[..self.count]
    }
}
