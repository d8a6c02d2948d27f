//! The laws of views.

ghost use Rattle.word_table.specs.view.Laws.{SeenLowerIsGreatest, SeenUpperIsLeast, MoreIsLater};
ghost use Rattle.word_table.specs.view.Laws.{RaisedIsSeen, SunkIsSeen, GivenIsHad, DraftIsHad};
ghost use Rattle.word_table.specs.view.Laws.{NotedIsMore, UnitedIsMore, LaterIsReflexive, LaterIsTransitive};

/// What a view has seen of states.
pub fn seen_laws()
    ensures lower { SeenLowerIsGreatest }
    ensures upper { SeenUpperIsLeast }
    ensures raised { RaisedIsSeen }
    ensures sunk { SunkIsSeen }
{}

/// What a view that has noted more knows and has seen.
pub fn view_laws()
    ensures later { MoreIsLater }
    ensures reflexive { LaterIsReflexive }
    ensures transitive { LaterIsTransitive }
    ensures noted { NotedIsMore }
    ensures united { UnitedIsMore }
    ensures given { GivenIsHad }
    ensures draft { DraftIsHad }
{}
