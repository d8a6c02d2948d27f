//! Texts by number.

ghost use Rattle.std.specs.Prelude.{◌≡◌, IfOk, IsTrue};
ghost use Rattle.plain_list.specs.Texts.{compare_texts, rises};

use crate::texts::text_set::TextSet;
use ground_terms::NameSet;
use plain_list::{List, Text};
use std::alloc::{AllocError, Global};

/// The texts of a set, in bytewise order.
pub fn texts_of_set(alloc: Global, set: TextSet) -> Result<List<Text>, AllocError>
    ensures { IfOk result (λ texts. texts ≡ set.texts) }
{
    let mut texts = Vec::new(alloc);
    for text in set.in_order(alloc)? {
        texts.push(text)?;
    }
    Ok(List::from_vec(texts))
}

/// Texts that rise as a set, in their order: the number of a text is its place.
pub fn name_set(alloc: Global, texts: &[Text]) -> Result<NameSet, AllocError>
    requires { IsTrue (rises compare_texts texts.now) }
    ensures { IfOk result (λ names. names ≡ texts.now) }
{
    let mut names = NameSet::new(alloc);
    for text in texts {
        names.add(text.as_slice())?;
    }
    Ok(names)
}
