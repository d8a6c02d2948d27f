//! The texts of atoms in order.

ghost use Rattle.grounder.specs.texts.Laws.{TextsAreInOrder, SameTextsPutIn};

/// Texts that are put in one after another are those of the atoms in bytewise order, each once; and texts
/// that pass the same tests are put in alike.
pub fn text_laws()
    ensures order { TextsAreInOrder }
    ensures same { SameTextsPutIn }
{}
