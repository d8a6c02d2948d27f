//! The texts of a task.

ghost use Rattle.std.specs.Prelude.{◌≡◌, ◌+◌, ◌≤◌, IfOk, option_map};
ghost use Rattle.std.specs.Option.{option_copied};
ghost use Rattle.shelf_io.specs.Shelf.{Missing};
ghost use Rattle.plan_request.specs.Shown.{shown_sources};
ghost use Rattle.plan_sources.specs.Endings.{MayEnd, MayGive, IsFault, OnlyRead};
ghost use Rattle.plan_sources.specs.Problems.{AreShort, text_within};
ghost use Rattle.plan_sources.specs.Problems.{second_count, text_count};
ghost use Rattle.plan_sources.specs.Sources.{LacksSecond, MayGiveSecond};
ghost use Rattle.plan_sources.specs.Sources.{LacksText, MayGiveTexts};

use plain_list::Bytes;
use plan_request::{Sources, Stop};
use ppddl_lex::MOST_TEXT;
use shelf_io::{Shelf, ShelfFault};
use std::alloc::Global;

/// The number of the limit on the bytes of a text.
pub(crate) const TEXT_LENGTH: u8 = 28;

/// The texts of a task: the domain and the problem, in one text or in two.
#[derive(Debug, Drop)]
pub struct Texts {
    /// The first text.
    pub first: Bytes,
    /// The second text, if there is one.
    pub second: Option<Bytes>,
}

impl Texts {
    /// The bytes of the second text, if there is one.
    pub(crate) fn second(&self) -> Option<&[u8]>
        ensures { option_copied result ≡ self.now.second }
    {
        match &self.second {
            None => None,
            Some(text) => Some(text.as_slice()),
        }
    }
}

/// The text under a name, within its limit.
fn read_text<S: Shelf>(alloc: Global, name: &str, shelf: &mut S) -> Result<Bytes, Stop>
    ensures ends { MayEnd
        (IsFault S.read_faults shelf.old shelf.new (S.held shelf.old name.now ≡ Missing))
        (MayGive text_within (S.held shelf.old name.now)) result }
    ensures calls { S.calls shelf.new ≤ S.calls shelf.old + 1 }
    ensures shelf { OnlyRead S.held S.read_faults S.write_faults shelf.old shelf.new }
{
    let most = MOST_TEXT as u64;
    match shelf.read(alloc, name, most) {
        Ok(text) => Ok(text),
        Err(ShelfFault::Failed) => Err(Stop::ReadFailed),
        Err(ShelfFault::TooLong) => Err(Stop::Limit {
            code: TEXT_LENGTH,
            most,
        }),
        Err(ShelfFault::Memory) => Err(Stop::NoMemory),
    }
}

/// The second text, if a request names one.
fn read_second<S: Shelf>(
    alloc: Global,
    name: Option<&str>,
    shelf: &mut S,
) -> Result<Option<Bytes>, Stop>
    ensures ends { MayEnd (IsFault S.read_faults shelf.old shelf.new
        (LacksSecond (S.held shelf.old) (option_map (λ n. n.now) name.entry)))
        (MayGiveSecond (S.held shelf.old) (option_map (λ n. n.now) name.entry)) result }
    ensures calls { S.calls shelf.new
        ≤ S.calls shelf.old + second_count (option_map (λ n. n.now) name.entry) }
    ensures shelf { OnlyRead S.held S.read_faults S.write_faults shelf.old shelf.new }
{
    match name {
        None => Ok(None),
        Some(name) => Ok(Some(read_text(alloc, name, shelf)?)),
    }
}

/// The texts of a request, each within its limit. The second one is asked for behind a first one that is.
pub(crate) fn read_texts<S: Shelf>(
    alloc: Global,
    sources: &Sources<'_>,
    shelf: &mut S,
) -> Result<Texts, Stop>
    ensures ends { MayEnd (IsFault S.read_faults shelf.old shelf.new
        (LacksText (S.held shelf.old) (shown_sources sources.now)))
        (MayGiveTexts (S.held shelf.old) (shown_sources sources.now)) result }
    ensures short { IfOk result AreShort }
    ensures calls { S.calls shelf.new
        ≤ S.calls shelf.old + text_count (shown_sources sources.now) }
    ensures shelf { OnlyRead S.held S.read_faults S.write_faults shelf.old shelf.new }
{
    let first = read_text(alloc, sources.domain, shelf)?;
    let second = read_second(alloc, sources.problem, shelf)?;
    Ok(Texts { first, second })
}
