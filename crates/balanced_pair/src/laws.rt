//! The laws of balanced pairs, for every process over any states and actions.

ghost use Rattle.decision_process.specs.Process.{Process};
ghost use Rattle.balanced_pair.specs.Laws.{HalvesAreBalanced, PlainIsBalanced, LowIsWithinHigh};
ghost use Rattle.balanced_pair.specs.Laws.{RowsOverPairAreBalanced, CertificateOverEncloses};
ghost use Rattle.balanced_pair.specs.Laws.{PlainReadsAlike, BalancedIsOverPlain};

/// The laws of balanced pairs, and of rows read over one.
pub fn pair_laws<S, A>()
    ensures halves { (p : Process S A) → HalvesAreBalanced p }
    ensures plain { (p : Process S A) → PlainIsBalanced p }
    ensures rows { (p : Process S A) → RowsOverPairAreBalanced p }
    ensures encloses { (p : Process S A) → CertificateOverEncloses p }
    ensures alike { (p : Process S A) → PlainReadsAlike p }
    ensures over_plain { (p : Process S A) → BalancedIsOverPlain p }
    ensures ordered { (p : Process S A) → LowIsWithinHigh p }
{}
