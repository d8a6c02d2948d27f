//! The bounds of a pass.

ghost use Rattle.std.specs.Prelude.{◌≡◌};
ghost use Rattle.std.specs.Coded.{codes};
ghost use Rattle.ground_model.specs.contracts.condition.GroundCondition as condition;
ghost use Rattle.bellman_backup.specs.Races.{IsRacing, IsReady};

use crate::backing::backup;
use crate::scratch::Scratch;
use bound_words::interval;
use brtdp_trial::{Backed, Bounds, Step};
use word_table::{Pass, Words};

/// Bounds over the shared words, as one pass finds and narrows them while others do. The ids of the starts are
/// their places.
#[derive(Drop)]
pub struct Racing<'a, 'w, 'p> {
    /// The words.
    pub words: &'a Words<'w>,
    /// The pass.
    pub pass: Pass,
    /// The scratch of its backups.
    pub scratch: Scratch<'p>,
    /// The pass and the scratch are of the words, and the pass may claim an id and knows the starts.
    pub ghost ready: { IsRacing words.now pass scratch } by { Prim.hlevel (codes, condition.the_row.coded) },
}

impl<'a, 'w, 'p> Racing<'a, 'w, 'p> {
    /// The bounds of a pass, with the scratch of its backups.
    pub fn new(words: &'a Words<'w>, pass: Pass, scratch: Scratch<'p>) -> Self
        requires { IsReady words.now pass scratch }
        ensures words { result.words.now ≡ words.now }
        ensures pass { result.pass ≡ pass }
        ensures scratch { result.scratch ≡ scratch.entry }
    {
        Racing {
            words,
            pass,
            scratch,
        }
    }
}

impl<'a, 'w, 'p> Bounds for Racing<'a, 'w, 'p> {
    ghost use Rattle.std.specs.Prelude.{◌≡◌, map, [], false};
    ghost use Rattle.ground_model.specs.declared.start.Start.{Start};
    ghost use Rattle.word_table.specs.view.Views.{knows};
    ghost use Rattle.brtdp_trial.specs.Listed.{no_action};
    ghost use Rattle.bellman_backup.specs.Races.{Races, races_on, races_again, weights_still};
    ghost use Rattle.bellman_backup.specs.Races.{FoundFull, found_full_between};

    ghost knows = { λ r id. knows r.pass.view id };

    ghost later = { λ r s. Races r.words.now r.pass r.scratch s.words.now s.pass s.scratch };

    ghost full = { λ r s. FoundFull r.pass.view s.pass.view };

    ghost weights = { λ r. map (λ (x : Start). x.weight) r.words.now.problem.starts };

    ghost last = { λ r. r.scratch.last };

    ghost told = { record {
      tells = λ r. false;
      starts = λ r. [];
      backed = λ r id. no_action 0;
      after = λ r id. r;
    } };

    fn start_count(&self) -> u32 {
        self.words.problem().starts().len() as u32
    }

    fn start(&mut self, index: u32) -> Step {
        let weight = self.words.problem().starts()[index as usize].weight;
        let found = interval(self.words, &mut self.pass, index);
        Step {
            weight,
            id: Some(index),
            lower: found.lower,
            upper: found.upper,
        }
    }

    fn backup(&mut self, id: u32) -> Backed {
        backup(self.words, &mut self.pass, id, &mut self.scratch)
    }

    fn step_of(&self, index: u32) -> Step {
        self.scratch.step_of(index)
    }

    ghost refl = { λ x. races_on x.words.now x.pass x.scratch };

    ghost trans = { λ x y z a b. races_again x.words.now x.pass x.scratch
        y.words.now y.pass y.scratch z.words.now z.pass z.scratch a b };

    ghost known_stays = { λ x y id a known. a.noted.known id known };

    ghost full_stays = { λ w x y z a full c. found_full_between w.pass.view x.pass.view
        y.pass.view z.pass.view a.noted a.looks full c.noted c.looks };

    ghost weights_stay = { λ x y a. weights_still x.words.now y.words.now a.words };
}
