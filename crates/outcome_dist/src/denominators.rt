//! Denominators of `probabilistic` effects and of their branches.

ghost use Rattle.std.specs.Prelude.{◌≡◌, ◌*◌, ◌/◌, IfOk};
ghost use Rattle.exact_fraction.specs.Divisors.{lcm_of};
ghost use Rattle.ppddl_model.specs.declared.tree.Branch.{Branch};
ghost use Rattle.ground_meaning.specs.choices.Joint.{den_of};
ghost use Rattle.ground_terms.specs.sizes.Typed.{IsTyped};
ghost use Rattle.outcome_dist.specs.Draws.{own_of, inner_of, factor_of};

use exact_fraction::lcm_within;
use ground_terms::denominator;
use ppddl_model::{Branch, Effect};
use std::alloc::AllocError;
use type_table::TypeTable;

/// The least common multiple. One of nothing or beyond 64 bits has no room.
fn multiple(a: u64, b: u64) -> Result<u64, AllocError>
    ensures { IfOk result (λ m. m ≡ lcm_of a b) }
{
    if a == 0 || b == 0 {
        return Err(AllocError);
    }
    lcm_within(a, b, u64::MAX).ok_or(AllocError)
}

/// The denominator of an effect. One beyond 64 bits has no room.
fn whole_denominator(table: &TypeTable, effect: &Effect) -> Result<u64, AllocError>
    requires { IsTyped table.now }
    ensures { IfOk result (λ d. d ≡ den_of table.now effect.now) }
{
    let den = denominator(table, effect);
    if den == u64::MAX {
        return Err(AllocError);
    }
    Ok(den)
}

/// The least common multiple of the denominators of the chances.
pub(crate) fn own_denominator(branches: &[Branch]) -> Result<u64, AllocError>
    ensures { IfOk result (λ d. d ≡ own_of branches.now) }
{
    let mut own: u64 = 1;
    let mut place = branches.len();
    while place > 0 {
        place -= 1;
        own = multiple(branches[place].chance.den, own)?;
    }
    Ok(own)
}

/// The least common multiple of the denominators of the branches.
pub(crate) fn inner_denominator(table: &TypeTable, branches: &[Branch]) -> Result<u64, AllocError>
    requires { IsTyped table.now }
    ensures { IfOk result (λ d. d ≡ inner_of table.now branches.now) }
{
    let mut inner: u64 = 1;
    let mut place = branches.len();
    while place > 0 {
        place -= 1;
        let den = whole_denominator(table, &branches[place].effect)?;
        inner = multiple(den, inner)?;
    }
    Ok(inner)
}

/// A product. One beyond 64 bits has no room.
pub(crate) fn times(a: u64, b: u64) -> Result<u64, AllocError>
    ensures { IfOk result (λ k. k ≡ a * b) }
{
    a.checked_mul(b).ok_or(AllocError)
}

/// By what the weights of a branch are multiplied. A factor beyond 64 bits has no room.
pub(crate) fn branch_factor(
    own: u64,
    inner: u64,
    table: &TypeTable,
    branch: &Branch,
) -> Result<u64, AllocError>
    requires { IsTyped table.now }
    ensures { IfOk result (λ k. k ≡ factor_of own inner table.now branch.now) }
{
    let den = whole_denominator(table, &branch.effect)?;
    if branch.chance.den == 0 || den == 0 {
        return Err(AllocError);
    }
    let parts = own / branch.chance.den;
    let shares = branch.chance.num.checked_mul(parts).ok_or(AllocError)?;
    shares.checked_mul(inner / den).ok_or(AllocError)
}
