//! Which lists of objects and which items of `:init` are accepted, as a relation between forms and what they declare or say, and
//! the law that the grammar by which they are read accepts these forms and no others.

ghost use Rattle.ppddl_form_grammar.specs.lists.Laws.{ObjectsAreDerived, ObjectsAreAccepted};
ghost use Rattle.ppddl_form_grammar.specs.lists.Laws.{ItemIsDerived, ItemIsAccepted};

/// A form is accepted, with a tree, exactly where it spells that tree.
pub fn list_laws()
    ensures objects_derived { ObjectsAreDerived }
    ensures objects_accepted { ObjectsAreAccepted }
    ensures item_derived { ItemIsDerived }
    ensures item_accepted { ItemIsAccepted }
{}
