//! Homomorphisms of decision processes, and what they carry.

ghost use Rattle.decision_process.specs.homomorphism.Laws.{LeastIsCarried, SpendIsCarried, StillIsCarried};
ghost use Rattle.decision_process.specs.homomorphism.Laws.{PlansAreCarried, PlansAreFound};
ghost use Rattle.decision_process.specs.homomorphism.Laws.{LowerIsCarried, UpperIsCarried};
ghost use Rattle.decision_process.specs.homomorphism.Laws.{LowerBackupIsCarried, UpperBackupIsCarried};
ghost use Rattle.decision_process.specs.homomorphism.Laws.{DownIsCarried, UpIsCarried, BalanceIsCarried};
ghost use Rattle.decision_process.specs.homomorphism.Laws.{PlainIsCarried, IntervalIsCarried};
ghost use Rattle.decision_process.specs.homomorphism.Laws.{CertificateIsCarried};
ghost use Rattle.decision_process.specs.homomorphism.Laws.{NearIsCarried, NearIsFound, DepthIsCarried};

/// Least costs, policies and plans are carried.
pub fn cost_laws<S, T, A, B>()
    ensures least { LeastIsCarried S T A B }
    ensures spend { SpendIsCarried S T A B }
    ensures still { StillIsCarried S T A B }
    ensures plans { PlansAreCarried S T A B }
    ensures plans_found { PlansAreFound S T A B }
{}

/// Bounds are carried: what follows from readings, backups, plain rounded iteration and balance.
pub fn bound_laws<S, T, A, B>()
    ensures lower { LowerIsCarried S T A B }
    ensures upper { UpperIsCarried S T A B }
    ensures lower_backup { LowerBackupIsCarried S T A B }
    ensures upper_backup { UpperBackupIsCarried S T A B }
    ensures down { DownIsCarried S T A B }
    ensures up { UpIsCarried S T A B }
    ensures balance { BalanceIsCarried S T A B }
    ensures plain { PlainIsCarried S T A B }
    ensures interval { IntervalIsCarried S T A B }
    ensures certificate { CertificateIsCarried S T A B }
{}

/// Levels are carried.
pub fn level_laws<S, T, A, B>()
    ensures near { NearIsCarried S T A B }
    ensures near_found { NearIsFound S T A B }
    ensures depth { DepthIsCarried S T A B }
{}
