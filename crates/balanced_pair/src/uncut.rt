//! Lower values that no plan undercuts.

ghost use Rattle.decision_process.specs.Process.{Process};
ghost use Rattle.balanced_pair.specs.uncut.Laws.{SubSolutionIsUncut, RaisedIsUncut, CoveredIsUncut};
ghost use Rattle.balanced_pair.specs.uncut.Laws.{GreaterIsUncut, UncutMeanIsBelowPlans, OptimumDoesNotCover};

/// The laws of values that no plan undercuts.
pub fn uncut_laws<S, A>()
    ensures lower { (p : Process S A) → SubSolutionIsUncut p }
    ensures raised { (p : Process S A) → RaisedIsUncut p }
    ensures covered { (p : Process S A) → CoveredIsUncut p }
    ensures greater { (p : Process S A) → GreaterIsUncut p }
    ensures plans { (p : Process S A) → UncutMeanIsBelowPlans p }
    ensures optimum { OptimumDoesNotCover }
{}
