//! What is known of the cost from below, whoever knows it.

ghost use Rattle.decision_process.specs.Process.{Process};
ghost use Rattle.decision_process.specs.under.Laws.{ZeroIsUnder, SmallerIsUnder, LeastStepIsUnder};
ghost use Rattle.decision_process.specs.under.Laws.{GreaterCovers, UnderMeanIsBelowPlans, UnderMeanIsHigher};
ghost use Rattle.decision_process.specs.under.Laws.{UnderIsCarried, UnderMeanIsCarried};

/// The laws of values that are known from below.
pub fn under_laws<S, A>()
    ensures zero { (p : Process S A) → ZeroIsUnder p }
    ensures smaller { (p : Process S A) → SmallerIsUnder p }
    ensures least_step { (p : Process S A) → LeastStepIsUnder p }
    ensures greater { (p : Process S A) → GreaterCovers p }
    ensures plans { (p : Process S A) → UnderMeanIsBelowPlans p }
    ensures higher { UnderMeanIsHigher S }
{}

/// What is known from below is carried.
pub fn carried_laws<S, T, A, B>()
    ensures under { UnderIsCarried S T A B }
    ensures mean { UnderMeanIsCarried S T A B }
{}
