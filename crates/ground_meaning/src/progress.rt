//! How soon plain rounded iteration narrows, from the penalty and the least cost of a step alone.

ghost use Rattle.decision_process.specs.Process.{Process};
ghost use Rattle.ppddl_model.specs.declared.tree.Task.{Task};
ghost use Rattle.ppddl_model.specs.Steps.{Charges};
ghost use Rattle.ground_meaning.specs.progress.Laws.{UpNarrowsToDown, IntervalNarrows};
ghost use Rattle.ground_model.specs.Ground.{Ground};
ghost use Rattle.ground_model.specs.Invariant.{IsGroundProblem};
ghost use Rattle.ground_meaning.specs.progress.Laws.{TaskNarrows, TaskIntervalNarrows};
ghost use Rattle.ground_meaning.specs.progress.Laws.{GroundNarrows, GroundIntervalNarrows};

/// For every process: the bounds of each state, and the interval of weighted starts.
pub fn progress_laws<S, A>()
    ensures states { (p : Process S A) → UpNarrowsToDown p }
    ensures starts { (p : Process S A) → IntervalNarrows p }
{}

/// The same of every planning task, with its least step cost.
pub fn task_progress_laws()
    ensures states { (task : Task) (charges : Charges) → TaskNarrows task charges }
    ensures starts { (task : Task) (charges : Charges) → TaskIntervalNarrows task charges }
{}

/// The same of every ground problem, with the least cost of its choices.
pub fn ground_progress_laws()
    ensures states { (g : Ground) → IsGroundProblem g → GroundNarrows g }
    ensures starts { (g : Ground) → IsGroundProblem g → GroundIntervalNarrows g }
{}
