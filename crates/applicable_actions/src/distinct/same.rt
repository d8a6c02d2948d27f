//! Whether actions do the same.
//!
//! Conditions are compared by their cases. They hold conditions, and of such a type a derived `==` says nothing that
//! a contract could name.

ghost use Rattle.std.specs.Prelude.{◌≡◌, IsTrue};
ghost use Rattle.applicable_actions.specs.distinct.Enough.{DoTheSame};

use ground_model::{Choice, GroundAction, GroundCondition, Guarded};

/// Whether two conditions are the same.
#[cycle(conditions)]
fn same_condition(one: &GroundCondition, other: &GroundCondition) -> bool
    ensures { IsTrue result → one.now ≡ other.now }
{
    match one {
        GroundCondition::True => matches!(other, GroundCondition::True),
        GroundCondition::False => matches!(other, GroundCondition::False),
        GroundCondition::Atom(atom) => match other {
            GroundCondition::Atom(another) => atom == another,
            _ => false,
        },
        GroundCondition::Not(inner) => match other {
            GroundCondition::Not(another) => same_condition(inner.get(), another.get()),
            _ => false,
        },
        GroundCondition::All(parts) => match other {
            GroundCondition::All(others) => same_conditions(parts.as_slice(), others.as_slice()),
            _ => false,
        },
        GroundCondition::Any(parts) => match other {
            GroundCondition::Any(others) => same_conditions(parts.as_slice(), others.as_slice()),
            _ => false,
        },
    }
}

/// Whether two lists of conditions are the same.
#[cycle(conditions)]
fn same_conditions(some: &[GroundCondition], others: &[GroundCondition]) -> bool
    ensures { IsTrue result → some.now ≡ others.now }
{
    if some.len() != others.len() {
        return false;
    }
    for place in 0..some.len() {
        if !same_condition(&some[place], &others[place]) {
            return false;
        }
    }
    true
}

/// Whether two guarded parts are the same.
fn same_part(one: &Guarded, other: &Guarded) -> bool
    ensures { IsTrue result → one.now ≡ other.now }
{
    same_condition(&one.condition, &other.condition)
        && one.adds == other.adds
        && one.deletes == other.deletes
        && one.cost == other.cost
}

/// Whether two lists of guarded parts are the same.
fn same_parts(some: &[Guarded], others: &[Guarded]) -> bool
    ensures { IsTrue result → some.now ≡ others.now }
{
    if some.len() != others.len() {
        return false;
    }
    for place in 0..some.len() {
        if !same_part(&some[place], &others[place]) {
            return false;
        }
    }
    true
}

/// Whether two choices are the same.
fn same_choice(one: &Choice, other: &Choice) -> bool
    ensures { IsTrue result → one.now ≡ other.now }
{
    one.weight == other.weight
        && one.cost == other.cost
        && one.adds == other.adds
        && one.deletes == other.deletes
        && same_parts(one.guarded.as_slice(), other.guarded.as_slice())
}

/// Whether two lists of choices are the same.
fn same_choices(some: &[Choice], others: &[Choice]) -> bool
    ensures { IsTrue result → some.now ≡ others.now }
{
    if some.len() != others.len() {
        return false;
    }
    for place in 0..some.len() {
        if !same_choice(&some[place], &others[place]) {
            return false;
        }
    }
    true
}

/// Whether two actions differ in their names alone.
pub(super) fn do_the_same(one: &GroundAction, other: &GroundAction) -> bool
    ensures { IsTrue result → DoTheSame one.now other.now }
{
    one.den == other.den
        && same_condition(&one.condition, &other.condition)
        && same_choices(one.choices.as_slice(), other.choices.as_slice())
}
