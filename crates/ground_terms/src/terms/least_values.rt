//! The least values of functions.

ghost use Rattle.std.specs.Prelude.{◌≡◌, IfOk, OnOk};
ghost use Rattle.ground_terms.specs.terms.Maps.{with_least};
ghost use Rattle.ground_terms.specs.terms.Values.{least_of};

use crate::terms::name_map::NameMap;
use ppddl_model::ValueItem;
use std::alloc::{AllocError, Global};
use std::marker::Model;

/// The least value that `:init` gives to each function, which is found by hash. Contracts see the items
/// that give values.
#[derive(Drop)]
pub struct LeastValues<'a> {
    items: &'a [ValueItem],
    numbers: NameMap,
}

impl<'a> Model for LeastValues<'a> {
    ghost use Rattle.std.specs.Prelude.{List};
    ghost use Rattle.ppddl_model.specs.declared.tree.ValueItem.{ValueItem};
    ghost use Rattle.ground_terms.specs.terms.Values.{AreLeast};

    ghost Value = { List ValueItem };

    ghost view = { λ v. v.items.now };

    ghost invariant = { λ v. AreLeast v.items.now v.numbers };
}

/// Lowers the number of a function to the value of an item, or gives it this value.
fn lower(numbers: &mut NameMap, item: &ValueItem) -> Result<(), AllocError>
    ensures { OnOk result (numbers.new
        ≡ with_least numbers.old item.now.function.predicate item.now.value) }
{
    let function = item.function.predicate.as_slice();
    let least = match numbers.get(function) {
        Some(number) => number.min(item.value),
        None => item.value,
    };
    numbers.set(function, least)
}

impl<'a> LeastValues<'a> {
    /// The least values of these items. It is refused for want of memory alone.
    pub fn new(alloc: Global, items: &'a [ValueItem]) -> Result<Self, AllocError>
        ensures { IfOk result (λ v. v ≡ items.now) }
    {
        let mut numbers = NameMap::new(alloc);
        for item in items {
            lower(&mut numbers, item)?;
        }
        Ok(LeastValues { items, numbers })
    }

    /// The least value of a function, in micro-units: 0 where it has none.
    pub fn least_of(&self, function: &[u8]) -> u64
        ensures { result ≡ least_of self.now function.now }
    {
        self.numbers.get(function).unwrap_or(0)
    }
}
