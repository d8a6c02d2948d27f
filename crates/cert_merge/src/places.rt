//! Where the entries of the tables of two certificates stand in the tables of one.

ghost use Rattle.std.specs.Prelude.{◌≡◌, ◌≤◌, IfOk, IsTrue, length};
ghost use Rattle.plain_list.specs.Texts.{compare_texts, rises};
ghost use Rattle.certificate.specs.declared.limits.TheConstants.{MOST_COUNT};
ghost use Rattle.cert_merge.specs.Placing.{placed_act, ArePlacesOf, HasPlaceFor};

use crate::joint_act::JointAct;
use crate::tables::places_of;
use certificate::{Act, Certificate, MOST_COUNT, Text};
use std::alloc::{AllocError, Global};

/// Of the entries of the tables of two certificates their places in the tables of one, if it has them.
#[derive(Drop)]
pub(crate) struct Places {
    pub atoms: Vec<u32>,
    pub acts: Vec<u32>,
    pub atoms_too: Vec<u32>,
    pub acts_too: Vec<u32>,
}

impl Places {
    /// The places in these tables.
    pub fn new(
        alloc: Global,
        atoms: &[Text],
        acts: &[Text],
        first: &Certificate,
        second: &Certificate,
    ) -> Result<Self, AllocError>
        requires atoms { IsTrue (rises compare_texts atoms.now) }
        requires acts { IsTrue (rises compare_texts acts.now) }
        requires few_atoms { length atoms.now ≤ MOST_COUNT }
        requires few_acts { length acts.now ≤ MOST_COUNT }
        ensures { IfOk result (ArePlacesOf atoms.now acts.now first.now second.now) }
    {
        Ok(Places {
            atoms: places_of(alloc, atoms, first.atoms())?,
            acts: places_of(alloc, acts, first.acts())?,
            atoms_too: places_of(alloc, atoms, second.atoms())?,
            acts_too: places_of(alloc, acts, second.acts())?,
        })
    }

    /// An act of the two by its place in the one table.
    pub fn act(&self, act: JointAct) -> Act
        requires { HasPlaceFor self.now act }
        ensures { result ≡ placed_act self.now act }
    {
        match act {
            JointAct::GiveUp => Act::GiveUp,
            JointAct::Goal => Act::Goal,
            JointAct::First(place) => Act::Do(self.acts[place as usize]),
            JointAct::Second(place) => Act::Do(self.acts_too[place as usize]),
        }
    }
}
