//! What a trial asks of the bounds that it moves over.

ghost use Rattle.std.specs.Prelude.{◌≡◌, ◌<◌, ◌≤◌, ◌^◌, ℕ, true, Some, List, length, sum, All};
ghost use Rattle.std.specs.List.{slice_get, slice_index};
ghost use Rattle.brtdp_trial.specs.Meaning.{Last, Told, weights_of, AreChoices, IsInterval};
ghost use Rattle.brtdp_trial.specs.Meaning.{HasId, LeadsToKnown, IsAnswerOf, UnplacedOnlyWhere};

use crate::step::{Backed, Step};

/// Bounds of states, which backups narrow. Whoever shares them with others may find other numbers at each
/// reading; then the bounds tell no numbers beforehand.
pub trait Bounds {
    // the ids that are known
    ghost knows: { Self → ℕ → Type 0 };

    // the second may follow the first: nothing that was found is forgotten
    ghost later: { Self → Self → Type 0 };

    // between the first and the second it was found that a state gets no id
    ghost full: { Self → Self → Type 0 };

    // the weights of the starts
    ghost weights: { Self → List ℕ };

    // what the last backup answered, with the choices as they were read
    ghost last: { Self → Last };

    // the numbers, where they are told
    ghost told: { Told Self };

    /// How many starts there are.
    fn start_count(&self) -> u32
        ensures count { result ≡ length (weights self.now) }
        ensures some { 1 ≤ result }
        ensures few { result ≤ 64 }
        ensures positive { All (λ w. 0 < w) (weights self.now) }
        ensures whole { sum (weights self.now) ≤ 10 ^ 18 }
        ensures told { told.tells self.now ≡ true
            → weights_of (told.starts self.now) ≡ weights self.now };

    /// Reads one start.
    fn start(&mut self, index: u32) -> Step
        requires { index < length (weights self.old) }
        ensures later { later self.old self.new }
        ensures weight { result.weight ≡ slice_index (weights self.old) index }
        ensures interval { IsInterval result }
        ensures placed { HasId result }
        ensures known { LeadsToKnown (knows self.new) result }
        ensures told { told.tells self.old ≡ true
            → (slice_get (told.starts self.old) index ≡ Some result) × (self.new ≡ self.old) };

    /// Backs up one state: narrows its bounds by those of the states that may follow, and answers the action
    /// that is best by the lower ones.
    fn backup(&mut self, id: u32) -> Backed
        requires { knows self.old id }
        ensures later { later self.old self.new }
        ensures answer { IsAnswerOf (last self.new) result }
        ensures choices { AreChoices (last self.new) }
        ensures known { All (LeadsToKnown (knows self.new)) (last self.new).steps }
        ensures unplaced { All (UnplacedOnlyWhere (full self.old self.new)) (last self.new).steps }
        ensures told { told.tells self.old ≡ true
            → (last self.new ≡ told.backed self.old id) × (self.new ≡ told.after self.old id) };

    /// One choice of the action that the last backup answered, as that backup read it.
    fn step_of(&self, index: u32) -> Step
        requires { index < length (last self.now).steps }
        ensures { slice_get (last self.now).steps index ≡ Some result };

    // ---- laws

    ghost refl: { (x : Self) → later x x };

    ghost trans: { (x y z : Self) → later x y → later y z → later x z };

    ghost known_stays: { (x y : Self) (id : ℕ) → later x y → knows x id → knows y id };

    ghost full_stays: { (w x y z : Self) → later w x → full x y → later y z → full w z };

    ghost weights_stay: { (x y : Self) → later x y → weights y ≡ weights x };
}
