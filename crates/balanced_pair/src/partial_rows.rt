//! Partial rows: one upper value, and one act, for a whole set of states.

ghost use Rattle.decision_process.specs.Process.{Process};
ghost use Rattle.balanced_pair.specs.partial_rows.Laws.{PartialHighIsLeast, PartialRowsAreSuperSolution};

/// The laws of partial rows.
pub fn partial_row_laws<S, A>()
    ensures least { (p : Process S A) → PartialHighIsLeast p }
    ensures upper { (p : Process S A) → PartialRowsAreSuperSolution p }
{}
