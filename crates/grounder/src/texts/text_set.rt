//! Sets of texts.

ghost use Rattle.std.specs.Prelude.{◌≡◌, [], ◌∷◌, IfOk};
ghost use Rattle.grounder.specs.texts.Wanted.{none_wanted, IsPut};

use indexmap::IndexSet;
use plain_list::Text;
use std::alloc::{AllocError, Global};
use std::collections::BTreeSet;
use std::marker::Model;

/// Distinct texts, of which no more than so many are wanted. They are found by hash: most texts that are put
/// in are there already. Contracts see them in bytewise order.
#[derive(Drop)]
pub struct TextSet {
    texts: IndexSet<Text>,
    most: usize,
}

impl Model for TextSet {
    ghost use Rattle.std.specs.Prelude.{[]};
    ghost use Rattle.grounder.specs.texts.Texts.{with_texts};
    ghost use Rattle.grounder.specs.texts.Wanted.{Wanted};

    ghost Value = { Wanted };

    ghost view = { λ s. record { texts = with_texts [] s.texts.keys; most = s.most } };
}

impl TextSet {
    /// No texts, where no more than `most` are wanted.
    pub fn new(alloc: Global, most: usize) -> Self
        ensures { result ≡ none_wanted most }
    {
        TextSet {
            texts: IndexSet::new(alloc),
            most,
        }
    }

    /// Puts a text in its place, where it is not there yet, and answers whether there are no more than are
    /// wanted. It is refused for want of memory alone.
    pub fn insert(&mut self, text: Text) -> Result<bool, AllocError>
        ensures { IfOk result (λ all. IsPut self.old (text ∷ []) all self.new) }
    {
        let Ok(_) = self.texts.insert(text) else {
            return Err(AllocError);
        };
        Ok(self.texts.len() <= self.most)
    }

    /// The texts in bytewise order. It is refused for want of memory alone.
    pub(super) fn in_order(self, alloc: Global) -> Result<BTreeSet<Text>, AllocError>
        ensures { IfOk result (λ ordered. ordered.keys ≡ self.texts) }
    {
        let mut ordered = BTreeSet::new(alloc);
        for text in self.texts {
            ordered.insert(text)?;
        }
        Ok(ordered)
    }
}
