//! The choices of the items of `:init`.

ghost use Rattle.std.specs.Prelude.{◌≡◌, ◌≤◌, ◌∷◌, [], length, map, IfOk, IfErr};
ghost use Rattle.exact_fraction.specs.Divisors.{common_multiple};
ghost use Rattle.plain_list.specs.weighted.Mean.{positive};
ghost use Rattle.ppddl_model.specs.Denominator.{share};
ghost use Rattle.ground_model.specs.declared.limits.TheConstants.{MOST_STARTS};
ghost use Rattle.ground_meaning.specs.choices.Rising.{rising};
ghost use Rattle.ground_meaning.specs.choices.Joint.{weight_of, with_weight, with_rest, with_factor};
ghost use Rattle.ground_meaning.specs.refusals.Starts.{true_choice, item_choices, start_choices, widest_start};
ghost use Rattle.outcome_dist.specs.conditions.Bindings.{numbering_of};
ghost use Rattle.grounder.specs.starts.Growing.{adding, numbers_each, chance_choice, dens_of, IsTooMany};

use crate::starts::denominators::chance_denominator;
use crate::starts::growing::Growing;
use exact_fraction::Fraction;
use ground_meaning::GroundRefusal;
use ground_terms::Scope;
use outcome_dist::{Binding, Draft, atom_numbers, multiply};
use ppddl_model::{Atom, InitBranch, InitItem};
use std::alloc::{AllocError, Global};

/// The numbers of those of the atoms that have one, in order.
fn numbers_each(alloc: Global, within: &Binding<'_>, atoms: &[Atom]) -> Result<Vec<u32>, AllocError>
    ensures { IfOk result (λ v. v.items ≡ numbers_each (numbering_of within.now) atoms.now) }
{
    let mut numbers = Vec::new(alloc);
    for atom in atoms {
        let found = atom_numbers(alloc, within, atom, &Scope::Empty)?;
        numbers.extend_from_slice(found.as_slice())?;
    }
    Ok(numbers)
}

/// The choice of a weight that makes these atoms true, and none where the weight is 0.
fn weighing(alloc: Global, weight: u64, atoms: Vec<u32>) -> Result<Vec<Draft>, AllocError>
    ensures { IfOk result
        (λ v. v.items ≡ positive weight_of (with_weight weight (adding (rising atoms.items)) ∷ [])) }
{
    let mut weights = Vec::new(alloc);
    weights.push(Draft::idle(alloc, weight))?;
    let mut literals = Vec::new(alloc);
    literals.push(Draft::literal(alloc, atoms, Vec::new(alloc)))?;
    match multiply(alloc, weights.as_slice(), literals.as_slice()) {
        Ok(list) => Ok(list),
        Err(_) => Err(AllocError),
    }
}

/// A chance as a number of shares of a denominator. A chance over 0 has none.
fn share(den: u64, chance: &Fraction) -> Result<u64, AllocError>
    ensures { IfOk result (λ k. k ≡ share den chance.now) }
{
    if chance.den == 0 {
        return Err(AllocError);
    }
    let part = den / chance.den;
    chance.num.checked_mul(part).ok_or(AllocError)
}

/// The choice of a branch with a weight, and none where the weight is 0.
fn branch_choice(
    alloc: Global,
    within: &Binding<'_>,
    branch: &InitBranch,
    weight: u64,
) -> Result<Vec<Draft>, AllocError>
    ensures { IfOk result (λ v. v.items
        ≡ positive weight_of (true_choice (numbering_of within.now) weight branch.now.atoms ∷ [])) }
{
    let atoms = numbers_each(alloc, within, branch.atoms.as_slice())?;
    weighing(alloc, weight, atoms)
}

/// The choices of branches that have a weight, and nothing with the weight that is left.
fn chance_choices(
    alloc: Global,
    within: &Binding<'_>,
    branches: &[InitBranch],
    den: u64,
) -> Result<Vec<Draft>, AllocError>
    ensures { IfOk result (λ v. v.items ≡ positive weight_of (with_rest den
        (map (chance_choice (numbering_of within.now) den) branches.now))) }
{
    let mut drafts = Vec::new(alloc);
    let mut used: u64 = 0;
    for branch in branches {
        let weight = share(den, &branch.chance)?;
        used = used.checked_add(weight).ok_or(AllocError)?;
        let mut chosen = branch_choice(alloc, within, branch, weight)?;
        drafts.append(&mut chosen)?;
    }
    let mut rest = weighing(alloc, den.saturating_sub(used), Vec::new(alloc))?;
    drafts.append(&mut rest)?;
    Ok(drafts)
}

/// The least common multiple of the denominators of the chances. One beyond 64 bits has no room.
fn whole(branches: &[InitBranch]) -> Result<u64, AllocError>
    ensures { IfOk result (λ d. d ≡ common_multiple (dens_of branches.now)) }
{
    let den = chance_denominator(branches);
    if den == u64::MAX {
        return Err(AllocError);
    }
    Ok(den)
}

/// The choices with those of one more item.
fn with_item(
    alloc: Global,
    within: &Binding<'_>,
    before: Growing,
    item: &InitItem,
) -> Result<Growing, GroundRefusal>
    ensures put { IfOk result
        (λ g. g ≡ with_factor before (item_choices (numbering_of within.now) item.now)) }
    ensures few { IfOk result (λ g. length g ≤ MOST_STARTS) }
    ensures refused { IfErr result (λ e. IsTooMany e
        (length (with_factor before (item_choices (numbering_of within.now) item.now)))) }
{
    match item {
        InitItem::Fact(atom) => {
            let atoms = atom_numbers(alloc, within, atom, &Scope::Empty)?;
            Ok(before.with_sure(atoms)?)
        }
        InitItem::Value(_) => Ok(before.with_sure(Vec::new(alloc))?),
        InitItem::Chance(branches) => {
            let den = whole(branches.as_slice())?;
            let drafts = chance_choices(alloc, within, branches.as_slice(), den)?;
            before.with_drawn(drafts)
        }
    }
}

/// The choices of all items, unless on the way there are too many.
pub(super) fn start_choices(
    alloc: Global,
    within: &Binding<'_>,
    items: &[InitItem],
) -> Result<Vec<Draft>, GroundRefusal>
    ensures found { IfOk result
        (λ v. v.items ≡ start_choices (numbering_of within.now) items.now) }
    ensures narrow { IfOk result
        (λ _. widest_start (numbering_of within.now) items.now ≤ MOST_STARTS) }
    ensures refused { IfErr result
        (λ e. IsTooMany e (widest_start (numbering_of within.now) items.now)) }
{
    let start = Growing::new(alloc)?;
    let mut grown = start;
    for item in items {
        grown = with_item(alloc, within, grown, item)?;
    }
    Ok(grown.into_list()?)
}
