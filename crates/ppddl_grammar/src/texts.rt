//! Which texts spell which tasks, as a relation without an order of reading and without refusals.

ghost use Rattle.ppddl_grammar.specs.texts.Laws.{TaskIsDerived, TaskIsAccepted, OneTaskIsRead};

/// A task is read of one text or of two exactly where the texts spell it, and they spell at most one.
pub fn text_laws()
    ensures derived { TaskIsDerived }
    ensures accepted { TaskIsAccepted }
    ensures one { OneTaskIsRead }
{}
