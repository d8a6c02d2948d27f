//! What is known from below.

ghost use Rattle.plan_search.specs.Under.{KnownIsUnder};

/// What is known of states by what may be asked for is known from below of them.
pub fn under_laws()
    ensures { KnownIsUnder }
{}
