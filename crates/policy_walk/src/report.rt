//! The report of walks.

ghost use Rattle.std.specs.Prelude.{◌≡◌, ◌++◌, ◌≤◌, decimal, length, IfOk, OnOk, codes};
ghost use Rattle.std.specs.List.{All};
ghost use Rattle.plan_report.specs.Units.{units};
ghost use Rattle.policy_walk.specs.declared.limits.TheConstants.{MOST_WALKS, MOST_WALK_COST};
ghost use Rattle.policy_walk.specs.Reports.{end_word, walk_line, total_cost, walks_text};

use crate::ends::{Walk, WalkEnd};
use itoa::Buffer;
use plain_list::Bytes;
use plan_report::put_units;
use std::alloc::{AllocError, Global};

/// The word of an end.
fn end_word(end: WalkEnd) -> &'static [u8]
    ensures { result.now ≡ end_word end }
{
    match end {
        WalkEnd::Goal => b"goal",
        WalkEnd::GaveUp => b"gave-up",
        WalkEnd::Open => b"open",
    }
}

/// Appends a word and a number behind it.
fn push_number(out: &mut Vec<u8>, word: &[u8], number: u64) -> Result<(), AllocError>
    ensures { OnOk result (out.new.items ≡ out.old.items ++ (word.now ++ decimal number)) }
{
    out.extend_from_slice(word)?;
    let mut buffer = Buffer::new();
    out.extend_from_slice(buffer.format(number).as_bytes())
}

/// Appends a word and an amount behind it, in units, and ends the line.
fn push_amount(out: &mut Vec<u8>, word: &[u8], amount: u64) -> Result<(), AllocError>
    ensures { OnOk result (out.new.items
        ≡ out.old.items ++ (word.now ++ units amount ++ codes "\n")) }
{
    out.extend_from_slice(word)?;
    let mut buffer = [0; 24];
    let length = put_units(amount, &mut buffer);
    out.extend_from_slice(&buffer[..length])?;
    out.push(b'\n')?;
    Ok(())
}

/// Appends the line of a walk.
fn push_walk(out: &mut Vec<u8>, number: usize, walk: &Walk) -> Result<(), AllocError>
    ensures { OnOk result (out.new.items ≡ out.old.items ++ walk_line number walk.now) }
{
    push_number(out, b"walk ", number as u64)?;
    out.push(b' ')?;
    out.extend_from_slice(end_word(walk.end))?;
    push_number(out, b" ", u64::from(walk.steps))?;
    push_amount(out, b" ", walk.cost)
}

/// What walks cost together.
fn total_cost(walks: &[Walk]) -> u64
    requires few { length walks.now ≤ MOST_WALKS }
    requires costs { All (λ (w : Walk). w.cost ≤ MOST_WALK_COST) walks.now }
    ensures { result ≡ total_cost walks.now }
{
    let mut total = 0;
    for walk in walks {
        total += walk.cost;
    }
    total
}

/// The report of walks: a line for each with its number, its end, how many steps it made and its cost in
/// units, then how many walks there are, and what they cost together. It is refused for want of memory alone.
pub fn walk_report(alloc: Global, walks: &[Walk]) -> Result<Bytes, AllocError>
    requires few { length walks.now ≤ MOST_WALKS }
    requires costs { All (λ (w : Walk). w.cost ≤ MOST_WALK_COST) walks.now }
    ensures { IfOk result (λ report. report ≡ walks_text walks.now) }
{
    let mut out = Vec::new(alloc);
    for (number, walk) in walks.iter().enumerate() {
        push_walk(&mut out, number, walk)?;
    }
    push_number(&mut out, b"walks ", walks.len() as u64)?;
    push_amount(&mut out, b"\ntotal ", total_cost(walks))?;
    Ok(Bytes::from_vec(out))
}
