//! What sweeps over the states near the starts leave, round after round, whoever else narrows the bounds.

ghost use Rattle.std.specs.Prelude.{List};
ghost use Rattle.decision_process.specs.Process.{Process, Start};
ghost use Rattle.decision_process.specs.sweeps.Laws.{StartIsNear, SuccessorIsNear, NearIsStartOrSuccessor};
ghost use Rattle.decision_process.specs.sweeps.Laws.{OutcomeIsSuccessor, NearGrows};
ghost use Rattle.decision_process.specs.sweeps.Laws.{WiderIsBackedUp, NarrowerHasRounds, RoundsBegin};
ghost use Rattle.decision_process.specs.sweeps.Laws.{RoundGoesOn, StartsHaveRounds, MeansHaveRounds};

/// The laws of levels.
pub fn level_laws<S, A>()
    ensures starts { (p : Process S A) (starts : List (Start S)) → StartIsNear p starts }
    ensures successors { (p : Process S A) (starts : List (Start S)) → SuccessorIsNear p starts }
    ensures cases { (p : Process S A) (starts : List (Start S)) → NearIsStartOrSuccessor p starts }
    ensures outcomes { (p : Process S A) → OutcomeIsSuccessor p }
    ensures grows { (p : Process S A) (starts : List (Start S)) → NearGrows p starts }
{}

/// The laws of sweeps.
pub fn sweep_laws<S, A>()
    ensures wider { (p : Process S A) → WiderIsBackedUp p }
    ensures narrower { (p : Process S A) (starts : List (Start S)) → NarrowerHasRounds p starts }
    ensures begin { (p : Process S A) (starts : List (Start S)) → RoundsBegin p starts }
    ensures goes_on { (p : Process S A) (starts : List (Start S)) → RoundGoesOn p starts }
    ensures states { (p : Process S A) (starts : List (Start S)) → StartsHaveRounds p starts }
    ensures means { (p : Process S A) (starts : List (Start S)) → MeansHaveRounds p starts }
{}
