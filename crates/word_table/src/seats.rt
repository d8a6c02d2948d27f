//! Passes that are split off, joined and met.

ghost use Rattle.std.specs.Prelude.{◌≡◌, ◌<◌, ◌≤◌, ◌-◌, Some, None, ℕ};
ghost use Rattle.word_table.specs.view.Steps.{without_rights, with_one_right, less_one_right, united, richer};
ghost use Rattle.word_table.specs.Seen.{knowledge, IsOf, with_rights};

use crate::pass::Pass;
use crate::plays::{NoRight, OneRight, TakesRights, Unites};
use crate::words::Words;

/// A pass that knows and has seen the same, without rights.
fn split_without(words: &Words<'_>, pass: &mut Pass) -> Pass
    requires { IsOf words.now pass.old }
    ensures old { pass.new ≡ pass.old }
    ensures new { result ≡ knowledge pass.old.table (without_rights pass.old.view) }
{
    let seat = words.table.shared.split_seat::<NoRight>(&mut pass.seat);
    Pass { seat, spare: None }
}

/// The same with one right, which the old pass loses.
fn split_one(words: &Words<'_>, pass: &mut Pass) -> Pass
    requires here { IsOf words.now pass.old }
    requires right { 0 < pass.old.view.rights }
    requires keeps { (id : ℕ) → pass.old.view.spare ≡ Some id → 1 < pass.old.view.rights }
    ensures old { pass.new ≡ knowledge pass.old.table (less_one_right pass.old.view) }
    ensures new { result ≡ knowledge pass.old.table (with_one_right pass.old.view) }
{
    let seat = words.table.shared.split_seat::<OneRight>(&mut pass.seat);
    Pass { seat, spare: None }
}

/// The rights of the other pass go to the first.
fn take_rights(words: &Words<'_>, pass: &mut Pass, other: Pass)
    requires here { IsOf words.now pass.old × IsOf words.now other }
    requires free { other.view.spare ≡ None }
    ensures { pass.new ≡ knowledge pass.old.table (richer pass.old.view other.view) }
{
    let Pass { seat, spare: _ } = other;
    words
        .table
        .shared
        .join_seat::<TakesRights>(&mut pass.seat, seat);
}

/// A pass that knows and has seen the same, with so many of the claim rights. It holds no spare.
pub fn split(words: &Words<'_>, pass: &mut Pass, rights: u32) -> Pass
    requires here { IsOf words.now pass.old }
    requires rights { rights ≤ pass.old.view.rights }
    requires keeps { (id : ℕ) → pass.old.view.spare ≡ Some id → rights < pass.old.view.rights }
    ensures old { let left = pass.old.view.rights - rights
        in pass.new ≡ knowledge pass.old.table (with_rights left pass.old.view) }
    ensures new { let copy = without_rights pass.old.view
        in result ≡ knowledge pass.old.table (with_rights rights copy) }
{
    let mut new = split_without(words, pass);
    for _ in 0..rights {
        let right = split_one(words, pass);
        take_rights(words, &mut new, right);
    }
    new
}

/// The pass knows what either knew, has seen the narrower numbers of both, and has the rights of both.
pub fn join(words: &Words<'_>, pass: &mut Pass, other: Pass)
    requires here { IsOf words.now pass.old × IsOf words.now other }
    requires free { other.view.spare ≡ None }
    ensures { pass.new ≡ knowledge pass.old.table (united pass.old.view other.view) }
{
    let Pass { seat, spare: _ } = other;
    words.table.shared.join_seat::<Unites>(&mut pass.seat, seat);
}

/// The pass learns what the other one knows and has seen. The other keeps its spare and its rights.
pub fn meet(words: &Words<'_>, pass: &mut Pass, other: &mut Pass)
    requires here { IsOf words.now pass.old × IsOf words.now other.old }
    ensures pass { let copy = without_rights other.old.view
        in pass.new ≡ knowledge pass.old.table (united pass.old.view copy) }
    ensures other { other.new ≡ other.old }
{
    let copy = split_without(words, other);
    join(words, pass, copy);
}
