//! What one of two certificates, or both, say of a state.

ghost use Rattle.std.specs.Prelude.{◌≡◌};
ghost use Rattle.cert_merge.specs.Pairs.{IsOriginOf};
ghost use Rattle.cert_merge.specs.Claims.{first_claim, second_claim, untold_claim, meet_claims, IsClaimOf};
ghost use Rattle.certificate.specs.Rows.{shown};

use crate::joint_act::JointAct;
use crate::origin::Origin;
use certificate::{Certificate, RowView};

/// Bounds on the value of a state in micro-units, and what to do in it.
#[derive(Clone, Copy, Debug)]
pub(crate) struct Claim {
    pub lower: u64,
    pub upper: u64,
    pub act: JointAct,
}

impl Claim {
    /// What is known off goals of a state without a row.
    fn untold(penalty: u64) -> Self
        ensures { result ≡ untold_claim penalty }
    {
        Claim {
            lower: 0,
            upper: penalty,
            act: JointAct::GiveUp,
        }
    }

    /// What a row of the first says.
    fn of_first(row: RowView<'_>) -> Self
        ensures { result ≡ first_claim (shown row.entry) }
    {
        Claim {
            lower: row.lower,
            upper: row.upper,
            act: JointAct::from_first(row.act),
        }
    }

    /// What a row of the second says.
    fn of_second(row: RowView<'_>) -> Self
        ensures { result ≡ second_claim (shown row.entry) }
    {
        Claim {
            lower: row.lower,
            upper: row.upper,
            act: JointAct::from_second(row.act),
        }
    }

    /// The greater lower and the smaller upper value, with the act of the smaller; of equal ones the first's.
    fn meet(self, other: Claim) -> Self
        ensures { result ≡ meet_claims self other }
    {
        Claim {
            lower: self.lower.max(other.lower),
            upper: self.upper.min(other.upper),
            act: if self.upper <= other.upper {
                self.act
            } else {
                other.act
            },
        }
    }
}

/// What two certificates together say of the state of the rows in these places.
pub(crate) fn claim_of(first: &Certificate, second: &Certificate, origin: Origin) -> Claim
    requires { IsOriginOf first.now second.now origin }
    ensures { IsClaimOf first.now second.now origin result }
{
    let (rows, others) = (first.rows(), second.rows());
    let untold = Claim::untold(first.penalty());
    match origin {
        Origin::First(i) => Claim::of_first(rows.row(i as usize)).meet(untold),
        Origin::Second(j) => untold.meet(Claim::of_second(others.row(j as usize))),
        Origin::Both(i, j) => {
            Claim::of_first(rows.row(i as usize)).meet(Claim::of_second(others.row(j as usize)))
        }
    }
}
