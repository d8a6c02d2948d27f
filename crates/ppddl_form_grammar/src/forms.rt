//! Which forms of planning texts are accepted, as a relation between forms and trees, and the law that the grammar by which
//! they are read accepts these forms and no others.

ghost use Rattle.ppddl_form_grammar.specs.forms.Laws.{ListIsDerived, ListIsAccepted};
ghost use Rattle.ppddl_form_grammar.specs.forms.Laws.{ConditionIsDerived, ConditionIsAccepted};
ghost use Rattle.ppddl_form_grammar.specs.forms.Laws.{EffectIsDerived, EffectIsAccepted};

/// A form is accepted, with a tree, exactly where it spells that tree.
pub fn form_laws()
    ensures list_derived { ListIsDerived }
    ensures list_accepted { ListIsAccepted }
    ensures condition_derived { ConditionIsDerived }
    ensures condition_accepted { ConditionIsAccepted }
    ensures effect_derived { EffectIsDerived }
    ensures effect_accepted { EffectIsAccepted }
{}
