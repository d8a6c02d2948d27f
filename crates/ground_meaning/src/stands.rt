//! When a ground problem stands for a planning task, and what it then has in common with it.

ghost use Rattle.ground_meaning.specs.stands.Laws.{ChangingByBits, OthersByFacts};
ghost use Rattle.ground_meaning.specs.stands.Laws.{IsCarried, StartsAreCarried};
ghost use Rattle.ground_meaning.specs.stands.Laws.{OutcomesHaveWeight, StatesAreFound};
ghost use Rattle.ground_meaning.specs.stands.Laws.{SameLeast, SameSpend, SameStill};
ghost use Rattle.ground_meaning.specs.stands.Laws.{PlansAreCarried, PlansAreFound};
ghost use Rattle.ground_meaning.specs.stands.Laws.{SameDown, SameUp, SamePlain};
ghost use Rattle.ground_meaning.specs.stands.Laws.{SameBalance, SameCertificate};
ghost use Rattle.ground_meaning.specs.stands.Laws.{NearIsCarried, NearIsFound, SameDepth};

/// The state for which a packed state stands.
pub fn state_laws()
    ensures changing { ChangingByBits }
    ensures others { OthersByFacts }
{}

/// The process of a ground problem is mapped to that of its task by a homomorphism.
pub fn stands_laws()
    ensures process { IsCarried }
    ensures starts { StartsAreCarried }
    ensures weights { OutcomesHaveWeight }
    ensures back { StatesAreFound }
{}

/// So costs are the same, each over its own scale.
pub fn same_cost_laws()
    ensures least { SameLeast }
    ensures spend { SameSpend }
    ensures still { SameStill }
    ensures plans { PlansAreCarried }
    ensures plans_found { PlansAreFound }
{}

/// So bounds and certificates are.
pub fn same_value_laws()
    ensures down { SameDown }
    ensures up { SameUp }
    ensures plain { SamePlain }
    ensures balance { SameBalance }
    ensures certificate { SameCertificate }
{}

/// So are the states near the starts.
pub fn same_level_laws()
    ensures near { NearIsCarried }
    ensures near_found { NearIsFound }
    ensures depth { SameDepth }
{}
