//! Rows of numbers, one for each type.

ghost use Rattle.std.specs.Prelude.{◌<◌, length, nat_eq, IfOk, OnOk};
ghost use Rattle.std.specs.List.{All, IsDistinct};
ghost use Rattle.type_table.specs.declared.link.Link.{Link};
ghost use Rattle.type_table.specs.Rows.{AreEmpty, AreParents, IsPushed, AddsToRow, AddsObject};

use crate::link::Link;
use std::alloc::{AllocError, Global};

/// As many rows, with nothing in them.
pub(crate) fn empty_rows(alloc: Global, count: usize) -> Result<Vec<Vec<u32>>, AllocError>
    ensures { IfOk result (λ rows. AreEmpty count rows.items) }
{
    let mut rows = Vec::new(alloc);
    for _kind in 0..count {
        rows.push(Vec::new(alloc))?;
    }
    Ok(rows)
}

/// Puts a number behind those of a row.
pub(crate) fn push_to(rows: &mut Vec<Vec<u32>>, kind: u32, number: u32) -> Result<(), AllocError>
    requires { kind < length rows.old.items }
    ensures { OnOk result (IsPushed rows.old.items kind number rows.new.items) }
{
    rows[kind as usize].push(number)?;
    Ok(())
}

/// The parents of each type, of which there are `count`.
pub(crate) fn parent_rows(
    alloc: Global,
    count: usize,
    links: &[Link],
) -> Result<Vec<Vec<u32>>, AllocError>
    requires { All (λ (link : Link). link.child < count) links.now }
    ensures { IfOk result (λ rows. AreParents links.now count rows.items) }
{
    let mut rows = empty_rows(alloc, count)?;
    for link in links {
        push_to(&mut rows, link.child, link.parent)?;
    }
    Ok(rows)
}

/// Puts an object behind those of each type of a row.
fn add_to_row(members: &mut Vec<Vec<u32>>, row: &[u32], object: u32) -> Result<(), AllocError>
    requires distinct { IsDistinct nat_eq row.now }
    requires within { All (λ k. k < length members.old.items) row.now }
    ensures { OnOk result (AddsToRow members.old.items row.now object members.new.items) }
{
    for kind in row {
        push_to(members, *kind, object)?;
    }
    Ok(())
}

/// Puts an object behind those of `object` and of each type of a row.
pub(crate) fn add_object(
    members: &mut Vec<Vec<u32>>,
    row: &[u32],
    object: u32,
) -> Result<(), AllocError>
    requires distinct { IsDistinct nat_eq row.now }
    requires within { All (λ k. k < length members.old.items) row.now }
    requires some { 0 < length members.old.items }
    ensures { OnOk result (AddsObject members.old.items row.now object members.new.items) }
{
    add_to_row(members, row, object)?;
    if !row.contains(&0) {
        push_to(members, 0, object)?;
    }
    Ok(())
}
