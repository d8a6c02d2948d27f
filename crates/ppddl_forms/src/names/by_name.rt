//! Declarations in their order, which are found by name.

ghost use Rattle.std.specs.Prelude.{◌≡◌, [], ◌∷◌, ◌++◌, length, take, OnOk, OnErr};
ghost use Rattle.std.specs.Option.{option_copied};
ghost use Rattle.ppddl_forms.specs.names.Places.{first_named, ArePlaces};

use crate::names::named::Named;
use crate::names::places::Places;
use std::alloc::{AllocError, Global};
use std::marker::Model;

/// Items in the order in which they were put in, of which the first of a name is found by hash.
/// Contracts see the items.
#[derive(Drop)]
pub(super) struct ByName<T: Named> {
    items: Vec<T>,
    places: Places,
}

impl<T: Named> Model for ByName<T> {
    ghost use Rattle.std.specs.Prelude.{List};
    ghost use Rattle.std.specs.Coded.{coded_list};
    ghost use Rattle.ppddl_forms.specs.names.Places.{ArePlaces};

    ghost Value = { List T };

    ghost coded = { coded_list T.code };

    ghost view = { λ b. b.items.items };

    ghost invariant = { λ b. ArePlaces T.name_of b.items.items b.places };
}

/// Puts an item behind the others. Where memory lacks, its name may have a place and no item.
fn add_one<T: Named>(items: &mut Vec<T>, places: &mut Places, item: &T) -> Result<(), AllocError>
    requires { ArePlaces T.name_of items.old.items places.old }
    ensures items { OnOk result (items.new.items ≡ items.old.items ++ item.now ∷ []) }
    ensures places { OnOk result (ArePlaces T.name_of items.new.items places.new) }
    ensures unchanged { OnErr result (items.new.items ≡ items.old.items) }
    ensures kept { take (length places.old) places.new ≡ places.old }
{
    let copy = item.copy()?;
    places.add(item.name(), items.len())?;
    items.push(copy)?;
    Ok(())
}

/// Puts items behind the others. Where memory lacks, some of them may be there.
fn add_each<T: Named>(items: &mut Vec<T>, places: &mut Places, more: &[T]) -> Result<(), AllocError>
    requires { ArePlaces T.name_of items.old.items places.old }
    ensures items { OnOk result (items.new.items ≡ items.old.items ++ more.now) }
    ensures places { OnOk result (ArePlaces T.name_of items.new.items places.new) }
    ensures kept_items { take (length items.old.items) items.new.items ≡ items.old.items }
    ensures kept_places { take (length places.old) places.new ≡ places.old }
{
    for item in more {
        add_one(items, places, item)?;
    }
    Ok(())
}

impl<T: Named> ByName<T> {
    /// No items.
    pub(super) fn new(alloc: Global) -> Self
        ensures { result ≡ [] }
    {
        ByName {
            items: Vec::new(alloc),
            places: Places::new(alloc),
        }
    }

    /// The items, in order.
    pub(super) fn as_slice(&self) -> &[T]
        ensures { result.now ≡ self.now }
    {
        self.items.as_slice()
    }

    /// The first item of a name.
    pub(super) fn find(&self, name: &[u8]) -> Option<&T>
        ensures { option_copied result ≡ first_named T.name_of self.now name.now }
    {
        let place = self.places.place_of(name)?;
        Some(&self.items[place])
    }

    /// Puts items behind the others, all or none. It is refused for want of memory alone.
    pub(super) fn add_all(&mut self, more: &[T]) -> Result<(), AllocError>
        ensures added { OnOk result (self.new ≡ self.old ++ more.now) }
        ensures refused { OnErr result (self.new ≡ self.old) }
    {
        let count = self.items.len();
        let names = self.places.len();
        let added = add_each(&mut self.items, &mut self.places, more);
        if added.is_err() {
            self.items.truncate(count);
            self.places.truncate(names);
        }
        added
    }
}
