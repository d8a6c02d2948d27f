//! The keys of facts, and of function terms that have values.

ghost use Rattle.std.specs.Prelude.{◌≡◌, [], flat_map, map, IfOk, OnOk};
ghost use Rattle.task_instances.specs.fact_rows.Adding.{with_names};
ghost use Rattle.task_instances.specs.facts.Adding.{fact_keys, value_key};

use ground_terms::{NameSet, Scope, atom_key};
use ppddl_model::{InitItem, ValueItem};
use std::alloc::{AllocError, Global};

/// Puts in the key of the fact that an item of `:init` names, if it names one.
fn add_fact(alloc: Global, keys: &mut NameSet, item: &InitItem) -> Result<(), AllocError>
    ensures { OnOk result (keys.new ≡ with_names keys.old (fact_keys item.now)) }
{
    match item {
        InitItem::Fact(atom) => {
            let key = atom_key(alloc, &Scope::Empty, atom)?;
            keys.add(key.as_slice())
        }
        InitItem::Chance(_) | InitItem::Value(_) => Ok(()),
    }
}

/// The keys of the facts of `:init`.
pub(super) fn keys_of_facts(alloc: Global, items: &[InitItem]) -> Result<NameSet, AllocError>
    ensures { IfOk result (λ keys. keys ≡ with_names [] (flat_map fact_keys items.now)) }
{
    let mut keys = NameSet::new(alloc);
    for item in items {
        add_fact(alloc, &mut keys, item)?;
    }
    Ok(keys)
}

/// The keys of the function terms that have values.
pub(super) fn keys_of_values(alloc: Global, items: &[ValueItem]) -> Result<NameSet, AllocError>
    ensures { IfOk result (λ keys. keys ≡ with_names [] (map value_key items.now)) }
{
    let mut keys = NameSet::new(alloc);
    for item in items {
        let key = atom_key(alloc, &Scope::Empty, &item.function)?;
        keys.add(key.as_slice())?;
    }
    Ok(keys)
}
