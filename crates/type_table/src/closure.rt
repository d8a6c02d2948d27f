//! What is reached from each type along declarations.

ghost use Rattle.std.specs.Prelude.{◌≡◌, ◌<◌, ◌^◌, length, map, nat_eq, IfOk, OnOk};
ghost use Rattle.std.specs.List.{All, IsDistinct, list_any};
ghost use Rattle.indexmap.specs.IndexSet.{insert_key};
ghost use Rattle.type_table.specs.declared.link.Link.{Link};
ghost use Rattle.type_table.specs.Reading.{items_of};
ghost use Rattle.type_table.specs.Rows.{AreWithin, Adds, IsReached, AreReached};
ghost use Rattle.type_table.specs.Rows.{in_row, is_round};

use crate::link::Link;
use indexmap::IndexSet;
use plain_list::List;
use std::alloc::{AllocError, Global};

/// Puts a number behind the others, where it is not among them.
fn add(seen: &mut IndexSet<u32>, number: u32) -> Result<(), AllocError>
    ensures keys { OnOk result (seen.new.keys ≡ insert_key nat_eq seen.old.keys number) }
    ensures distinct { OnOk result (IsDistinct nat_eq seen.new.keys) }
{
    let Ok(_) = seen.insert(number) else {
        return Err(AllocError);
    };
    Ok(())
}

/// Puts numbers behind the others, where they are not among them.
fn add_all(seen: &mut IndexSet<u32>, numbers: &[u32]) -> Result<(), AllocError>
    requires { IsDistinct nat_eq seen.old.keys }
    ensures added { OnOk result (Adds seen.old.keys numbers.now seen.new.keys) }
    ensures distinct { OnOk result (IsDistinct nat_eq seen.new.keys) }
{
    for number in numbers {
        add(seen, *number)?;
    }
    Ok(())
}

/// The types that are reached from a type, itself first.
fn reached(alloc: Global, parents: &[Vec<u32>], kind: u32) -> Result<List<u32>, AllocError>
    requires kind { kind < length parents.now }
    requires within { AreWithin (map items_of parents.now) }
    ensures { IfOk result (λ reached. IsReached (map items_of parents.now) kind reached) }
{
    let mut seen = IndexSet::new(alloc);
    add(&mut seen, kind)?;
    let mut next = 0;
    while next < seen.len() {
        let current = seen.as_slice()[next];
        add_all(&mut seen, parents[current as usize].as_slice())?;
        next += 1;
    }
    Ok(List::from_vec(seen.as_slice().to_vec(alloc)?))
}

/// The types that are reached from each type.
pub(crate) fn closure(alloc: Global, parents: &[Vec<u32>]) -> Result<List<List<u32>>, AllocError>
    requires many { length parents.now < 2 ^ 32 }
    requires within { AreWithin (map items_of parents.now) }
    ensures { IfOk result (λ rows. AreReached parents.now rows) }
{
    let mut rows = Vec::new(alloc);
    for kind in 0..parents.len() {
        rows.push(reached(alloc, parents, kind as u32)?)?;
    }
    Ok(List::from_vec(rows))
}

/// Whether a type is `object` or stands in a row.
pub(crate) fn in_row(row: &[u32], other: u32) -> bool
    ensures { result ≡ in_row row.now other }
{
    other == 0 || row.contains(&other)
}

/// Whether a declaration leads back to its own type.
fn is_round(rows: &[List<u32>], link: Link) -> bool
    requires { link.parent < length rows.now }
    ensures { result ≡ is_round rows.now link }
{
    if link.child == 0 && link.parent == 0 {
        return false;
    }
    in_row(rows[link.parent as usize].as_slice(), link.child)
}

/// Whether a declaration leads back to its own type.
pub(crate) fn has_round(rows: &[List<u32>], links: &[Link]) -> bool
    requires { All (λ (link : Link). link.parent < length rows.now) links.now }
    ensures { result ≡ list_any (is_round rows.now) links.now }
{
    for link in links {
        if is_round(rows, *link) {
            return true;
        }
    }
    false
}
