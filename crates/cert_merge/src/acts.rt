//! The table of the acts that rows take which are made of those of two certificates.

ghost use Rattle.std.specs.Prelude.{◌≡◌, ◌<◌, IfOk, OnOk, length, map};
ghost use Rattle.std.specs.List.{All};
ghost use Rattle.std.specs.BTreeSet.{insert_key};
ghost use Rattle.plain_list.specs.Texts.{compare_texts};
ghost use Rattle.certificate.specs.Content.{name_at};
ghost use Rattle.certificate.specs.Numbering.{act_names, acts_table, filled};
ghost use Rattle.cert_merge.specs.Tables.{named_joint, AreTaken, IsJoint};
ghost use Rattle.cert_merge.specs.Pairs.{row_of, IsOriginOf};

use crate::claim::claim_of;
use crate::joint_act::JointAct;
use crate::origin::Origin;
use crate::tables::entries_of;
use certificate::{Certificate, List, Text};
use std::alloc::{AllocError, Global};
use std::collections::BTreeSet;

/// Puts the entry in a place of a table into a set, unless the place is marked as one whose entry was put there
/// before.
fn put_entry(
    table: &[Text],
    place: u32,
    taken: &mut [bool],
    names: &mut BTreeSet<Text>,
) -> Result<(), AllocError>
    requires place { place < length table.now }
    requires taken { AreTaken table.now taken.old names.old.keys }
    ensures taken { OnOk result (AreTaken table.now taken.new names.new.keys) }
    ensures names { OnOk result
        (names.new.keys ≡ insert_key compare_texts names.old.keys (name_at table.now place)) }
{
    let place = place as usize;
    if taken[place] {
        return Ok(());
    }
    names.insert(table[place].clone()?)?;
    taken[place] = true;
    Ok(())
}

/// Puts the name of an act of two certificates into a set, if it has one.
fn put_act(
    first: &Certificate,
    taken: &mut [bool],
    second: &Certificate,
    taken_too: &mut [bool],
    names: &mut BTreeSet<Text>,
    act: JointAct,
) -> Result<(), AllocError>
    requires act { IsJoint first.now second.now act }
    requires taken { AreTaken first.now.acts taken.old names.old.keys }
    requires taken_too { AreTaken second.now.acts taken_too.old names.old.keys }
    ensures taken { OnOk result (AreTaken first.now.acts taken.new names.new.keys) }
    ensures taken_too { OnOk result (AreTaken second.now.acts taken_too.new names.new.keys) }
    ensures names { OnOk result (names.new.keys
        ≡ filled names.old.keys (act_names (named_joint first.now second.now act))) }
{
    match act {
        JointAct::GiveUp | JointAct::Goal => Ok(()),
        JointAct::First(place) => {
            put_entry(first.acts(), place, taken, names)?;
            Ok(())
        }
        JointAct::Second(place) => {
            put_entry(second.acts(), place, taken_too, names)?;
            Ok(())
        }
    }
}

/// The names of the actions that rows of these origins take, in rising order and each once. A name is copied once
/// for an entry of a table, however many rows take it.
pub(crate) fn acts_table(
    alloc: Global,
    first: &Certificate,
    second: &Certificate,
    origins: &[Origin],
) -> Result<List<Text>, AllocError>
    requires { All (IsOriginOf first.now second.now) origins.now }
    ensures { IfOk result (λ table. table
        ≡ acts_table (map (row_of first.now second.now) origins.now)) }
{
    let mut taken = vec![in alloc; false; first.acts().len()]?;
    let mut taken_too = vec![in alloc; false; second.acts().len()]?;
    let mut names = BTreeSet::new(alloc);
    for origin in origins {
        let claim = claim_of(first, second, *origin);
        put_act(
            first,
            &mut taken,
            second,
            &mut taken_too,
            &mut names,
            claim.act,
        )?;
    }
    entries_of(alloc, names)
}
