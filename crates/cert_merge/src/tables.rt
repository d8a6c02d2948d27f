//! Tables of texts that rise.

ghost use Rattle.std.specs.Prelude.{◌≡◌, ◌≤◌, length, IfOk, IsTrue, OnOk};
ghost use Rattle.plain_list.specs.Texts.{compare_texts, rises};
ghost use Rattle.certificate.specs.declared.limits.TheConstants.{MOST_COUNT};
ghost use Rattle.certificate.specs.Content.{IsCertificate};
ghost use Rattle.certificate.specs.Numbering.{Among, filled, place_of};
ghost use Rattle.cert_merge.specs.Tables.{ArePlaces, joined};

use certificate::{Certificate, List, MOST_COUNT, Text};
use std::alloc::{AllocError, Global};
use std::collections::BTreeSet;

/// Puts texts in a set.
fn insert_all(names: &mut BTreeSet<Text>, texts: &[Text]) -> Result<(), AllocError>
    ensures { OnOk result (names.new.keys ≡ filled names.old.keys texts.now) }
{
    for text in texts {
        names.insert(text.clone()?)?;
    }
    Ok(())
}

/// The texts of a set, in order.
pub(crate) fn entries_of(alloc: Global, names: BTreeSet<Text>) -> Result<List<Text>, AllocError>
    ensures { IfOk result (λ table. table ≡ names.keys) }
{
    let mut entries = Vec::new(alloc);
    for name in names {
        entries.push(name)?;
    }
    Ok(List::from_vec(entries))
}

/// The atoms of two certificates in rising order, each once.
pub(crate) fn joined(
    alloc: Global,
    first: &Certificate,
    second: &Certificate,
) -> Result<List<Text>, AllocError>
    ensures table { IfOk result (λ table. table ≡ joined first.now second.now) }
    ensures valid { IsCertificate first.now × IsCertificate second.now }
{
    let (atoms, others) = (first.atoms(), second.atoms());
    let mut names = BTreeSet::new(alloc);
    insert_all(&mut names, atoms)?;
    insert_all(&mut names, others)?;
    entries_of(alloc, names)
}

/// The place of a text in a table, if the table has it.
fn place_of(table: &[Text], text: &Text) -> u32
    requires rises { IsTrue (rises compare_texts table.now) }
    requires few { length table.now ≤ MOST_COUNT }
    ensures { Among table.now text.now → result ≡ place_of table.now text.now }
{
    let (Ok(place) | Err(place)) = table.binary_search(text);
    place as u32
}

/// Of each of these texts that a table has, its place there.
pub(crate) fn places_of(
    alloc: Global,
    table: &[Text],
    texts: &[Text],
) -> Result<Vec<u32>, AllocError>
    requires rises { IsTrue (rises compare_texts table.now) }
    requires few { length table.now ≤ MOST_COUNT }
    ensures { IfOk result (λ places. ArePlaces table.now texts.now places.items) }
{
    let mut places = Vec::with_capacity(alloc, texts.len())?;
    for text in texts {
        places.push(place_of(table, text))?;
    }
    Ok(places)
}
