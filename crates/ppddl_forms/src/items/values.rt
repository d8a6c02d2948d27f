//! Values that `:init` gives to functions.

ghost use Rattle.std.specs.Prelude.{◌≡◌, [], ◌∷◌, ◌++◌, map, IfOk, OnOk, OnErr};
ghost use Rattle.ppddl_model.specs.Objects.{named, ground_atom};
ghost use Rattle.ppddl_forms.specs.items.Values.{value_in};

use indexmap::IndexMap;
use ppddl_model::{Atom, List, Term, Text, ValueItem};
use std::alloc::{AllocError, Global};
use std::marker::Model;

/// The values that items of `:init` gave to functions. Contracts see the list of them, in the order of
/// the text, repeats kept.
#[derive(Drop)]
pub struct Values {
    alloc: Global,
    list: Vec<ValueItem>,
    // the first value of each function with its objects
    found: IndexMap<List<Text>, u64>,
}

impl Model for Values {
    ghost use Rattle.std.specs.Prelude.{List};
    ghost use Rattle.ppddl_model.specs.declared.tree.ValueItem.{ValueItem};
    ghost use Rattle.ppddl_forms.specs.items.Values.{IsIndexed};

    ghost Value = { List ValueItem };

    ghost view = { λ v. v.list.items };

    ghost invariant = { λ v. IsIndexed v.list.items v.found.entries };
}

/// The word of a term without variables.
fn word_of(term: &Term) -> &[u8]
    ensures { result.now ≡ named [] term.now }
{
    match term {
        Term::Variable(name) => name.as_slice(),
        Term::Object(name) => name.as_slice(),
    }
}

/// Puts copies of the words of terms without variables behind others. It is refused for want of memory
/// alone.
fn push_words(alloc: Global, terms: &[Term], words: &mut Vec<Text>) -> Result<(), AllocError>
    ensures { OnOk result (words.new.items ≡ words.old.items ++ map (named []) terms.now) }
{
    for term in terms {
        words.push(Text::from_slice(alloc, word_of(term))?)?;
    }
    Ok(())
}

/// A function with its objects. It is refused for want of memory alone.
fn key_of(alloc: Global, function: &Atom) -> Result<List<Text>, AllocError>
    ensures { IfOk result (λ key. key ≡ ground_atom [] function.now) }
{
    let predicate = Text::from_slice(alloc, function.predicate.as_slice())?;
    let mut key = vec![in alloc; predicate]?;
    match push_words(alloc, function.args.as_slice(), &mut key) {
        Ok(()) => Ok(List::from_vec(key)),
        Err(refusal) => {
            drop(key);
            Err(refusal)
        }
    }
}

impl Values {
    /// No values.
    pub fn new(alloc: Global) -> Self
        ensures { result ≡ [] }
    {
        Values {
            alloc,
            list: Vec::new(alloc),
            found: IndexMap::new(alloc),
        }
    }

    /// The values, in order.
    pub fn as_slice(&self) -> &[ValueItem]
        ensures { result.now ≡ self.now }
    {
        self.list.as_slice()
    }

    /// The values, in order.
    pub fn into_list(self) -> List<ValueItem>
        ensures { result ≡ self }
    {
        List::from_vec(self.list)
    }

    /// The value of a function with its objects, by the first item that gave it one. It is refused for
    /// want of memory alone.
    pub fn value_of(&self, function: &Atom) -> Result<Option<u64>, AllocError>
        ensures { IfOk result (λ value. value ≡ value_in self.now (ground_atom [] function.now)) }
    {
        let key = key_of(self.alloc, function)?;
        Ok(self.found.get(&key).copied())
    }

    /// Puts a value behind the others. It is refused for want of memory alone.
    pub fn add(&mut self, value: ValueItem) -> Result<(), AllocError>
        ensures added { OnOk result (self.new ≡ self.old ++ value ∷ []) }
        ensures refused { OnErr result (self.new ≡ self.old) }
    {
        let key = key_of(self.alloc, &value.function)?;
        let amount = value.value;
        self.list.push(value)?;
        if self.found.contains_key(&key) {
            return Ok(());
        }
        let Ok(_) = self.found.insert(key, amount) else {
            let _ = self.list.pop();
            return Err(AllocError);
        };
        Ok(())
    }
}
