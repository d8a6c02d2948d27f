//! The laws of places.

ghost use Rattle.word_table.specs.declared.layout.Layout.{Layout};
ghost use Rattle.word_table.specs.layout.Laws.{StateWordsAreWithin, StateWordsDiffer, TurnsAreBuckets};

/// Words of states stand before the numbers, and no two of them at one place.
pub fn layout_laws()
    ensures within { (l : Layout) → StateWordsAreWithin l }
    ensures differ { (l : Layout) → StateWordsDiffer l }
    ensures turns { (l : Layout) → TurnsAreBuckets l }
{}
