//! Values of functions.

ghost use Rattle.std.specs.Prelude.{◌≡◌, [], IfOk, OnOk};
ghost use Rattle.ppddl_model.specs.Objects.{ground_atom};
ghost use Rattle.ground_terms.specs.terms.Keys.{key_of};
ghost use Rattle.ground_terms.specs.terms.Maps.{with_first};
ghost use Rattle.ground_terms.specs.terms.Scopes.{binding_of};
ghost use Rattle.ground_terms.specs.terms.Values.{cost_in};

use crate::terms::keys::atom_key;
use crate::terms::name_map::NameMap;
use crate::terms::scope::Scope;
use ppddl_model::{Atom, ValueItem};
use std::alloc::{AllocError, Global};
use std::marker::Model;

/// The values that `:init` gives to function terms, which are found by hash. Contracts see the items
/// that give them; of two items for one term the first counts.
#[derive(Drop)]
pub struct FunctionValues<'a> {
    items: &'a [ValueItem],
    numbers: NameMap,
}

impl<'a> Model for FunctionValues<'a> {
    ghost use Rattle.std.specs.Prelude.{List};
    ghost use Rattle.ppddl_model.specs.declared.tree.ValueItem.{ValueItem};
    ghost use Rattle.ground_terms.specs.terms.Values.{AreValues};

    ghost Value = { List ValueItem };

    ghost view = { λ v. v.items.now };

    ghost invariant = { λ v. AreValues v.items.now v.numbers };
}

/// Puts in the value of an item, where its term has none yet.
fn add_value(alloc: Global, numbers: &mut NameMap, item: &ValueItem) -> Result<(), AllocError>
    ensures { OnOk result (numbers.new
        ≡ with_first numbers.old (key_of (ground_atom [] item.now.function)) item.now.value) }
{
    let key = atom_key(alloc, &Scope::Empty, &item.function)?;
    if numbers.get(key.as_slice()).is_none() {
        numbers.set(key.as_slice(), item.value)?;
    }
    Ok(())
}

impl<'a> FunctionValues<'a> {
    /// The values of these items. It is refused for want of memory alone.
    pub fn new(alloc: Global, items: &'a [ValueItem]) -> Result<Self, AllocError>
        ensures { IfOk result (λ v. v ≡ items.now) }
    {
        let mut numbers = NameMap::new(alloc);
        for item in items {
            add_value(alloc, &mut numbers, item)?;
        }
        Ok(FunctionValues { items, numbers })
    }

    /// The value of a function term under a scope, as a cost in micro-units: 0 where it has none.
    pub fn cost_of(&self, alloc: Global, scope: &Scope<'_>, term: &Atom) -> Result<u64, AllocError>
        ensures { IfOk result (λ cost. cost
            ≡ cost_in self.now (ground_atom (binding_of scope.now) term.now)) }
    {
        let key = atom_key(alloc, scope, term)?;
        Ok(self.numbers.get(key.as_slice()).unwrap_or(0))
    }
}
