//! What a certificate says, and one that is accepted.

ghost use Rattle.certificate_check.specs.Laws.{RowsDiffer, AcceptedIsBalanced};
ghost use Rattle.certificate_check.specs.Laws.{BalancedEncloses, PolicyEnds};
ghost use Rattle.certificate_check.specs.FollowingLaws.{LowerIsUpTo, UpperIsFrom, EndsAreMeans};
ghost use Rattle.certificate_check.specs.FollowingLaws.{LowerFailsAbove, UpperFailsWithout};

/// No two rows are of one state; a certificate is accepted exactly where it is balanced; the interval of a
/// balanced certificate encloses the cost, and its policy ends.
pub fn check_laws()
    ensures distinct { RowsDiffer }
    ensures accepted { AcceptedIsBalanced }
    ensures encloses { BalancedEncloses }
    ensures ends { PolicyEnds }
{}

/// Which values a row may have: a lower value up to the greatest that follows, an upper value from the least
/// that follows on, at a goal this alone; and which ends an interval has. So a row whose act is right is
/// refused for its lower value exactly where it is above, and else for its upper value exactly where it is not
/// within.
pub fn following_laws()
    ensures lower { LowerIsUpTo }
    ensures upper { UpperIsFrom }
    ensures lower_fails { LowerFailsAbove }
    ensures upper_fails { UpperFailsWithout }
    ensures ends { EndsAreMeans }
{}
