//! The laws of searches.

ghost use Rattle.plan_search.specs.solver.Laws.{FirstHasSolved, LaterHasSolved, ClosingIsSolved};

/// What a pass has when the rounds of a crew have ended, also after it has learnt more, and that the table which it
/// closes answers the search.
pub fn search_laws()
    ensures first { FirstHasSolved }
    ensures later { LaterHasSolved }
    ensures solved { ClosingIsSolved }
{}
