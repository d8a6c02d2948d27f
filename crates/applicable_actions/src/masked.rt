//! Conditions that are tested by masks.

ghost use Rattle.std.specs.Prelude.{◌≡◌, [], ◌∷◌, IfOk};
ghost use Rattle.ground_model.specs.Packed.{has_bit};
ghost use Rattle.ground_model.specs.Truth.{truth};
ghost use Rattle.applicable_actions.specs.Masks.{pass_all, IsMaskOf, AreRequired};

use crate::requirements::collect;
use crate::word_test::WordTest;
use ground_model::{GroundCondition, List, State};
use ground_step::holds;
use std::alloc::{AllocError, Global};
use std::marker::Model;

/// A condition beside the masks of its literals. A conjunction of literals is tested by the masks alone,
/// and of every other condition only the rest is left to its tree. Contracts see the condition.
#[derive(Drop)]
pub struct Masked<'p> {
    tests: List<WordTest>,
    is_whole: bool,
    condition: &'p GroundCondition,
}

impl<'p> Model for Masked<'p> {
    ghost use Rattle.std.specs.Coded.{codes};
    ghost use Rattle.ground_model.specs.contracts.condition.GroundCondition as conditions;
    ghost use Rattle.ground_model.specs.declared.condition.GroundCondition.{GroundCondition};
    ghost use Rattle.applicable_actions.specs.Masks.{IsMaskOf};

    ghost Value = { GroundCondition };

    ghost coded = { Prim.hlevel (codes, conditions.the_row.coded) };

    ghost view = { λ m. m.condition.now };

    ghost invariant = { λ m. IsMaskOf m.tests m.is_whole m.condition.now };
}

/// Whether a state passes each of the tests.
fn pass_all(tests: &[WordTest], state: &State) -> bool
    ensures { result ≡ pass_all tests.now state.now }
{
    for test in tests {
        if !test.passes(state) {
            return false;
        }
    }
    true
}

impl<'p> Masked<'p> {
    /// The condition with its masks. It is refused for want of memory alone.
    pub fn new(alloc: Global, condition: &'p GroundCondition) -> Result<Self, AllocError>
        ensures { IfOk result (λ masked. masked ≡ condition.now) }
    {
        let (masked, _atoms) = Masked::with_required(alloc, condition)?;
        Ok(masked)
    }

    /// The condition with its masks, and the atoms that it requires to be true.
    pub(crate) fn with_required(
        alloc: Global,
        condition: &'p GroundCondition,
    ) -> Result<(Self, List<u32>), AllocError>
        ensures masked { IfOk result (λ r. r.0 ≡ condition.now) }
        ensures atoms { IfOk result (λ r. AreRequired r.1 condition.now) }
    {
        let mut tests = Vec::new(alloc);
        let mut atoms = Vec::new(alloc);
        let is_whole = collect(condition, &mut tests, &mut atoms)?;
        let tests = List::from_vec(tests);
        let masked = Masked {
            tests,
            is_whole,
            condition,
        };
        Ok((masked, List::from_vec(atoms)))
    }

    /// Whether the condition holds in a state.
    pub fn holds(&self, state: &State) -> bool
        ensures { result ≡ truth (has_bit state.now) self.now }
    {
        pass_all(self.tests.as_slice(), state) && (self.is_whole || holds(self.condition, state))
    }

    /// One test that each state passes where the condition holds, and whether it is the whole condition.
    pub(crate) fn head(&self) -> (WordTest, bool)
        ensures { IsMaskOf (result.0 ∷ []) result.1 self.now }
    {
        let tests = self.tests.as_slice();
        let none = WordTest {
            place: 0,
            required: 0,
            excluded: 0,
        };
        match tests.last() {
            None => (none, self.is_whole),
            Some(last) => (*last, self.is_whole && tests.len() == 1),
        }
    }
}
