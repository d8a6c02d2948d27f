//! Laws of the definitions of numbers and of divisors.

ghost use Rattle.exact_fraction.specs.Laws.{ProbabilitiesAreReduced, ProbabilitiesAreExact};
ghost use Rattle.exact_fraction.specs.Laws.{AmountsAreExact};
ghost use Rattle.exact_fraction.specs.Laws.{ProbabilitiesIgnoreCase, AmountsIgnoreCase};
ghost use Rattle.exact_fraction.specs.Laws.{GcdIsGreatest, GcdIsUnique};
ghost use Rattle.exact_fraction.specs.Laws.{LcmIsLeast, LcmIsUnique, LcmIsPositive};
ghost use Rattle.exact_fraction.specs.Laws.{CommonMultipleIsLeast, CommonMultipleIsUnique};
ghost use Rattle.exact_fraction.specs.Laws.{CommonMultipleIsPositive};

/// What `probability_of` and `amount_of` are, for texts of every length.
pub fn number_laws()
    ensures reduced { ProbabilitiesAreReduced }
    ensures probability_value { ProbabilitiesAreExact }
    ensures amount_value { AmountsAreExact }
    ensures probability_case { ProbabilitiesIgnoreCase }
    ensures amount_case { AmountsIgnoreCase }
{}

/// What `gcd_of`, `lcm_of` and `common_multiple` are, for numbers of every size.
pub fn divisor_laws()
    ensures greatest { GcdIsGreatest }
    ensures greatest_alone { GcdIsUnique }
    ensures least { LcmIsLeast }
    ensures least_alone { LcmIsUnique }
    ensures least_positive { LcmIsPositive }
    ensures common { CommonMultipleIsLeast }
    ensures common_alone { CommonMultipleIsUnique }
    ensures common_positive { CommonMultipleIsPositive }
{}
