//! What the certificate of a ground problem says of the task for which the problem stands.

ghost use Rattle.plan_app.specs.certificates.Laws.{IsCarried, NamesAreCarried, BalanceIsCarried};
ghost use Rattle.plan_app.specs.certificates.Laws.{TaskIsEnclosed, TaskPolicyEnds};

/// A certificate is balanced for a ground problem exactly where it is for the task; then it says of the task
/// what it says by its names, it encloses the cost of the task, and its policy ends.
pub fn task_certificate_laws()
    ensures carried { IsCarried }
    ensures names { NamesAreCarried }
    ensures balance { BalanceIsCarried }
    ensures encloses { TaskIsEnclosed }
    ensures ends { TaskPolicyEnds }
{}
