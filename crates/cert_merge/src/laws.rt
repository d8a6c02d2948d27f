//! The laws of narrower readings, for every process over any states and actions, and of merged certificates.

ghost use Rattle.decision_process.specs.Process.{Process};
ghost use Rattle.cert_merge.specs.Laws.{NarrowerIsBalanced, NarrowerIntervalWithin};
ghost use Rattle.cert_merge.specs.Merged.{MergeIsOne};

/// Of two balanced readings the narrower is balanced, and its interval lies in both intervals.
pub fn merge_laws<S, A>()
    ensures balanced { (p : Process S A) → NarrowerIsBalanced p }
    ensures within { NarrowerIntervalWithin S }
{}

/// Two certificates of a ground problem make one, and no other.
pub fn merged_laws()
    ensures { MergeIsOne }
{}
