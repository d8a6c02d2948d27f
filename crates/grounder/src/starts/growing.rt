//! The choices of initial states while items are put in.

ghost use Rattle.std.specs.Prelude.{◌≡◌, ◌≤◌, ◌∷◌, [], length, IfOk, IfErr};
ghost use Rattle.ground_model.specs.declared.limits.TheConstants.{MOST_STARTS};
ghost use Rattle.ground_meaning.specs.choices.Rising.{rising};
ghost use Rattle.ground_meaning.specs.choices.Joint.{idle, with_factor};
ghost use Rattle.grounder.specs.starts.Growing.{adding, IsTooMany};

use ground_meaning::{GroundRefusal, LimitCode};
use ground_model::MOST_STARTS;
use outcome_dist::{Draft, JointRefusal, multiply};
use std::alloc::{AllocError, Global};
use std::marker::Model;

/// At most `MOST_STARTS` choices that only add. Contracts see the merged choices so far.
///
/// Atoms that are sure are gathered, and are put into each choice before the next item that is drawn, and
/// at the end. So a fact takes no copy of the choices.
#[derive(Drop)]
pub(super) struct Growing {
    alloc: Global,
    done: Vec<Draft>,
    sure: Vec<u32>,
}

impl Model for Growing {
    ghost use Rattle.std.specs.Prelude.{◌≤◌, List, length};
    ghost use Rattle.std.specs.Coded.{codes};
    ghost use Rattle.ground_model.specs.contracts.condition.GroundCondition as of_conditions;
    ghost use Rattle.ground_model.specs.declared.action.Choice.{Choice};
    ghost use Rattle.ground_model.specs.declared.limits.TheConstants.{MOST_STARTS};
    ghost use Rattle.grounder.specs.starts.Growing.{grown};

    ghost Value = { List Choice };

    ghost coded = { Prim.hlevel (codes, of_conditions.the_row.coded) };

    ghost view = { λ g. grown g.done.items g.sure.items };

    ghost invariant = { λ g. length g.done.items ≤ MOST_STARTS };
}

/// One choice of each list at once, merged, unless there are too many.
fn multiplied(alloc: Global, first: &[Draft], others: &[Draft]) -> Result<Vec<Draft>, GroundRefusal>
    ensures list { IfOk result (λ v. v.items ≡ with_factor first.now others.now) }
    ensures few { IfOk result (λ v. length v.items ≤ MOST_STARTS) }
    ensures refused { IfErr result (λ e. IsTooMany e (length (with_factor first.now others.now))) }
{
    match multiply(alloc, first, others) {
        Ok(list) => {
            if list.len() > MOST_STARTS {
                return Err(GroundRefusal::Limit(LimitCode::Starts));
            }
            Ok(list)
        }
        Err(JointRefusal::Memory) => Err(GroundRefusal::Memory),
        Err(_) => Err(GroundRefusal::Limit(LimitCode::Starts)),
    }
}

impl Growing {
    /// One state in which no atom is true.
    pub(super) fn new(alloc: Global) -> Result<Growing, AllocError>
        ensures { IfOk result (λ g. g ≡ idle 1 ∷ []) }
    {
        let mut done = Vec::new(alloc);
        done.push(Draft::idle(alloc, 1))?;
        Ok(Growing {
            alloc,
            done,
            sure: Vec::new(alloc),
        })
    }

    /// The choices with more atoms true in each.
    pub(super) fn with_sure(self, atoms: Vec<u32>) -> Result<Growing, AllocError>
        ensures put { IfOk result (λ g. g ≡ with_factor self (adding (rising atoms.items) ∷ [])) }
        ensures few { IfOk result (λ g. length g ≤ MOST_STARTS) }
    {
        let Growing {
            alloc,
            done,
            mut sure,
        } = self;
        sure.extend_from_slice(atoms.as_slice())?;
        Ok(Growing { alloc, done, sure })
    }

    /// The choices. It is refused for want of memory alone.
    pub(super) fn into_list(self) -> Result<Vec<Draft>, AllocError>
        ensures { IfOk result (λ v. v.items ≡ self) }
    {
        let Growing { alloc, done, sure } = self;
        let mut last = Vec::new(alloc);
        last.push(Draft::literal(alloc, sure, Vec::new(alloc)))?;
        match multiply(alloc, done.as_slice(), last.as_slice()) {
            Ok(list) => Ok(list),
            Err(_) => Err(AllocError),
        }
    }

    /// The choices at once with those of a list.
    pub(super) fn with_drawn(self, drafts: Vec<Draft>) -> Result<Growing, GroundRefusal>
        ensures put { IfOk result (λ g. g ≡ with_factor self drafts.items) }
        ensures few { IfOk result (λ g. length g ≤ MOST_STARTS) }
        ensures refused { IfErr result (λ e. IsTooMany e (length (with_factor self drafts.items))) }
    {
        let alloc = self.alloc;
        let before = self.into_list()?;
        let done = multiplied(alloc, before.as_slice(), drafts.as_slice())?;
        Ok(Growing {
            alloc,
            done,
            sure: Vec::new(alloc),
        })
    }
}
