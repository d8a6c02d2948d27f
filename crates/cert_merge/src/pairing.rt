//! Which rows of two certificates are of one state, in the order of the rows.

ghost use Rattle.std.specs.Prelude.{◌≡◌, ◌⊎◌, ◌<◌, ◌≤◌, length, map, IfOk};
ghost use Rattle.std.specs.List.{All};
ghost use Rattle.std.specs.Ordering.{nat_cmp};
ghost use Rattle.std.specs.Cmp.Lexicographic.{slice_cmp};
ghost use Rattle.certificate.specs.declared.limits.TheConstants.{MOST_COUNT};
ghost use Rattle.cert_merge.specs.Tables.{joined, place_in};
ghost use Rattle.cert_merge.specs.Pairs.{AreOrigins, IsNext, PlacesAgree};

use crate::origin::Origin;
use crate::tables::places_of;
use certificate::{Certificate, MOST_COUNT, Text};
use std::alloc::{AllocError, Global};
use std::cmp::Ordering;

/// The order of the atoms of two rows, by their places in one table.
fn compare_atoms(ours: &[u32], first: &[u32], theirs: &[u32], second: &[u32]) -> Ordering
    requires first { All (λ i. i < length ours.now) first.now }
    requires second { All (λ i. i < length theirs.now) second.now }
    ensures { result ≡ slice_cmp nat_cmp
        (map (place_in ours.now) first.now) (map (place_in theirs.now) second.now) }
{
    for place in 0..first.len().min(second.len()) {
        let here = ours[first[place] as usize];
        let there = theirs[second[place] as usize];
        if here != there {
            return here.cmp(&there);
        }
    }
    first.len().cmp(&second.len())
}

/// What the next row is made of, where so many rows of each are taken and one is left.
fn next_origin(
    first: &Certificate,
    ours: &[u32],
    i: usize,
    second: &Certificate,
    theirs: &[u32],
    j: usize,
) -> Origin
    requires ours { length ours.now ≡ length first.now.atoms }
    requires theirs { length theirs.now ≡ length second.now.atoms }
    requires agree { PlacesAgree first.now second.now ours.now theirs.now }
    requires within { (i ≤ length first.now.rows) × (j ≤ length second.now.rows) }
    requires some { (i < length first.now.rows) ⊎ (j < length second.now.rows) }
    ensures { IsNext first.now second.now i j result }
{
    let (rows, others) = (first.rows(), second.rows());
    if i >= rows.len() {
        return Origin::Second(j as u32);
    }
    if j >= others.len() {
        return Origin::First(i as u32);
    }
    let atoms = rows.row(i).atoms;
    let others = others.row(j).atoms;
    match compare_atoms(ours, atoms, theirs, others) {
        Ordering::Less => Origin::First(i as u32),
        Ordering::Equal => Origin::Both(i as u32, j as u32),
        Ordering::Greater => Origin::Second(j as u32),
    }
}

/// What each row of two certificates together is made of, in the order of the rows. The table has the atoms
/// of both.
pub(crate) fn origins_of(
    alloc: Global,
    atoms: &[Text],
    first: &Certificate,
    second: &Certificate,
) -> Result<Vec<Origin>, AllocError>
    requires atoms { atoms.now ≡ joined first.now second.now }
    requires few { length atoms.now ≤ MOST_COUNT }
    ensures { IfOk result (λ origins. AreOrigins first.now second.now origins.items) }
{
    let ours = places_of(alloc, atoms, first.atoms())?;
    let theirs = places_of(alloc, atoms, second.atoms())?;
    let (most_first, most_second) = (first.rows().len(), second.rows().len());
    let mut origins = Vec::with_capacity(alloc, most_first + most_second)?;
    let (mut i, mut j) = (0, 0);
    while i < most_first || j < most_second {
        let origin = next_origin(first, &ours, i, second, &theirs, j);
        i += origin.taken_first();
        j += origin.taken_second();
        origins.push(origin)?;
    }
    Ok(origins)
}
