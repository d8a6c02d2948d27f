//! The one rule of the shared table of ids: its words and all views show a sound core, and each kind of
//! step is an event of that core.

ghost use Rattle.ground_model.specs.Ground.{Ground};
ghost use Rattle.word_table.specs.declared.layout.Layout.{Layout};
ghost use Rattle.std.specs.Prelude.{ℕ};
ghost use Rattle.word_table.specs.rule.Laws.{MadeHolds, PutIsMade};
ghost use Rattle.word_table.specs.rule.Laws.{StepKeepsTheRule, LowerLoadIsAStep, UpperLoadIsAStep};
ghost use Rattle.word_table.specs.rule.Laws.{RaiseIsAStep, SinkIsAStep, CountLoadIsAStep, ClaimIsAStep};
ghost use Rattle.word_table.specs.rule.Laws.{WriteIsAStep, HeldLoadIsAStep, EmptyLoadIsAStep};
ghost use Rattle.word_table.specs.rule.Laws.{StateLoadIsAStep, PublishIsAStep};
ghost use Rattle.word_table.specs.rule.Laws.{SplitIsAStep, OneRightIsAStep, JoinIsAStep, RightsJoinIsAStep};
ghost use Rattle.word_table.specs.rule.Laws.{LowerIsTold, UpperIsTold, CountIsTold};
ghost use Rattle.word_table.specs.rule.Laws.{HeldIsTold, EmptyIsTold, StatesAreTold, OneStateIsTold};

/// The rule holds of a table as it is made.
pub fn made_laws()
    ensures made { (g : Ground) (l : Layout) (most : ℕ) → MadeHolds g l most }
    ensures put { (g : Ground) (l : Layout) (most : ℕ) → PutIsMade g l most }
{}

/// Each kind of step is an event of the core, and so keeps the rule.
pub fn step_laws()
    ensures keeps { (g : Ground) (l : Layout) (most : ℕ) → StepKeepsTheRule g l most }
    ensures lower_load { (g : Ground) (l : Layout) (most : ℕ) → LowerLoadIsAStep g l most }
    ensures upper_load { (g : Ground) (l : Layout) (most : ℕ) → UpperLoadIsAStep g l most }
    ensures raise { (g : Ground) (l : Layout) (most : ℕ) → RaiseIsAStep g l most }
    ensures sink { (g : Ground) (l : Layout) (most : ℕ) → SinkIsAStep g l most }
    ensures count_load { (g : Ground) (l : Layout) (most : ℕ) → CountLoadIsAStep g l most }
    ensures claim { (g : Ground) (l : Layout) (most : ℕ) → ClaimIsAStep g l most }
    ensures write { (g : Ground) (l : Layout) (most : ℕ) → WriteIsAStep g l most }
    ensures held { (g : Ground) (l : Layout) (most : ℕ) → HeldLoadIsAStep g l most }
    ensures empty { (g : Ground) (l : Layout) (most : ℕ) → EmptyLoadIsAStep g l most }
    ensures state_load { (g : Ground) (l : Layout) (most : ℕ) → StateLoadIsAStep g l most }
    ensures publish { (g : Ground) (l : Layout) (most : ℕ) → PublishIsAStep g l most }
    ensures split { (g : Ground) (l : Layout) (most : ℕ) → SplitIsAStep g l most }
    ensures one_right { (g : Ground) (l : Layout) (most : ℕ) → OneRightIsAStep g l most }
    ensures join { (g : Ground) (l : Layout) (most : ℕ) → JoinIsAStep g l most }
    ensures rights_join { (g : Ground) (l : Layout) (most : ℕ) → RightsJoinIsAStep g l most }
{}

/// What a step tells its own pass.
pub fn told_laws()
    ensures lower { (g : Ground) (l : Layout) (most : ℕ) → LowerIsTold g l most }
    ensures upper { (g : Ground) (l : Layout) (most : ℕ) → UpperIsTold g l most }
    ensures count { (g : Ground) (l : Layout) (most : ℕ) → CountIsTold g l most }
    ensures held { (g : Ground) (l : Layout) (most : ℕ) → HeldIsTold g l most }
    ensures empty { (g : Ground) (l : Layout) (most : ℕ) → EmptyIsTold g l most }
    ensures states { (g : Ground) (l : Layout) (most : ℕ) → StatesAreTold g l most }
    ensures one_state { (g : Ground) (l : Layout) (most : ℕ) → OneStateIsTold g l most }
{}
