//! Types of a list.

ghost use Rattle.std.specs.Prelude.{◌≡◌, ◌++◌, OnOk};
ghost use Rattle.ppddl_cursor.specs.Reading.{Gives};
ghost use Rattle.ppddl_reader.specs.sections.Types.{no_types, seen_type, new_type};
ghost use Rattle.ppddl_reader.specs.sections.Types.{types_wait, under, all_under, with_parent};

use indexmap::IndexSet;
use ppddl_cursor::Place;
use ppddl_forms::Name;
use ppddl_forms::symbols::OBJECT;
use ppddl_model::{Text, TextCode, TextRefusal, TypeDecl};
use std::alloc::{AllocError, Global};
use std::marker::Model;
use std::mem;

/// Types that have their parents, and names that wait for theirs.
#[derive(Drop)]
pub(super) struct TypeList {
    alloc: Global,
    // all names but `object`
    seen: IndexSet<Text>,
    done: Vec<TypeDecl>,
    waiting: Vec<Text>,
}

impl Model for TypeList {
    ghost use Rattle.ppddl_reader.specs.sections.Types.{ListedTypes};

    ghost Value = { ListedTypes };

    ghost view = { λ t. record {
      seen = t.seen.keys;
      done = t.done.items;
      waiting = t.waiting.items;
    } };
}

/// Puts a type under its parent behind the others; `object` under itself adds nothing.
fn push_under(
    alloc: Global,
    done: &mut Vec<TypeDecl>,
    name: Text,
    parent: &[u8],
) -> Result<(), AllocError>
    ensures { OnOk result (done.new.items ≡ done.old.items ++ under parent.now name) }
{
    if name.as_slice() == OBJECT && parent == OBJECT {
        return Ok(());
    }
    let parent = Text::from_slice(alloc, parent)?;
    done.push(TypeDecl { name, parent })?;
    Ok(())
}

/// Puts types under one parent behind the others.
fn push_all_under(
    alloc: Global,
    done: &mut Vec<TypeDecl>,
    names: Vec<Text>,
    parent: &[u8],
) -> Result<(), AllocError>
    ensures { OnOk result (done.new.items ≡ all_under parent.now done.old.items names.items) }
{
    for name in names {
        push_under(alloc, done, name, parent)?;
    }
    Ok(())
}

impl TypeList {
    /// No types.
    pub(super) fn new(alloc: Global) -> Self
        ensures { result ≡ no_types }
    {
        TypeList {
            alloc,
            seen: IndexSet::new(alloc),
            done: Vec::new(alloc),
            waiting: Vec::new(alloc),
        }
    }

    /// Puts a name among those seen. It was not named before, but for `object`.
    #[tactic(auto, using(ppddl_forms::proofs::Seen::insert_new))]
    fn see(&mut self, name: &Name) -> Result<(), TextRefusal>
        ensures { Gives (λ _. self.new) result (seen_type self.old name.now) }
    {
        if name.text.as_slice() == OBJECT {
            return Ok(());
        }
        let copy = Text::from_slice(self.alloc, name.text.as_slice())?;
        if !self.seen.insert(copy)? {
            return Err(name.place.refusal(TextCode::Twice));
        }
        Ok(())
    }

    /// Puts a name behind those that wait. It was not named before, but for `object`.
    pub(super) fn wait(&mut self, name: Name) -> Result<(), TextRefusal>
        ensures { Gives (λ _. self.new) result (new_type self.old name) }
    {
        self.see(&name)?;
        self.waiting.push(name.text)?;
        Ok(())
    }

    /// Accepts a `-` at this place, behind at least one name that waits.
    pub(super) fn accept_dash(&self, place: Place) -> Result<(), TextRefusal>
        ensures { Gives (λ _. tt) result (types_wait self.now place) }
    {
        if self.waiting.is_empty() {
            return Err(place.refusal(TextCode::Expected));
        }
        Ok(())
    }

    /// Gives a parent to the names that wait. It is refused for want of memory alone.
    pub(super) fn give(&mut self, parent: &[u8]) -> Result<(), AllocError>
        ensures { OnOk result (self.new ≡ with_parent parent.now self.old) }
    {
        let names = mem::replace(&mut self.waiting, Vec::new(self.alloc));
        push_all_under(self.alloc, &mut self.done, names, parent)
    }

    /// The types that have their parents.
    pub(super) fn as_slice(&self) -> &[TypeDecl]
        ensures { result.now ≡ self.now.done }
    {
        self.done.as_slice()
    }
}
