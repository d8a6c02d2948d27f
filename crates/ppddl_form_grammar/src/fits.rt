//! What is read of planning texts fits: conditions, effects, lists of variables and of objects, and items of `:init` meet what a
//! well-formed task asks of them, by what was declared so far and by all that is declared later.

ghost use Rattle.ppddl_form_grammar.specs.fits.Laws.{VariablesFit, ConditionFits, EffectFits, EffectDraws};
ghost use Rattle.ppddl_form_grammar.specs.fits.Laws.{ObjectsFit, ItemFits, ItemDraws, ValueFits};
ghost use Rattle.ppddl_form_grammar.specs.fits.Laws.{RewardFits, NameIsPlain};
ghost use Rattle.ppddl_form_grammar.specs.fits.Laws.{ConditionGrows, EffectGrows, ItemGrows, ValuesGrow};
ghost use Rattle.ppddl_form_grammar.specs.fits.Laws.{ParamsGrow, ObjectsGrow, DeclarationsGrow};
ghost use Rattle.ppddl_form_grammar.specs.fits.Laws.{DeclarationFits, TypesFit, DistinctGrows};
ghost use Rattle.ppddl_form_grammar.specs.fits.Laws.{NowDeclared, KeptDeclared};

/// What is read fits in every world and domain in which what was declared before is declared.
pub fn reading_laws()
    ensures variables { VariablesFit }
    ensures condition { ConditionFits }
    ensures effect { EffectFits }
    ensures draws { EffectDraws }
    ensures objects { ObjectsFit }
    ensures item { ItemFits }
    ensures item_draws { ItemDraws }
    ensures value { ValueFits }
    ensures reward { RewardFits }
    ensures name { NameIsPlain }
{}

/// What fits stays so where more is declared.
pub fn growth_laws()
    ensures now { NowDeclared }
    ensures kept { KeptDeclared }
    ensures condition { ConditionGrows }
    ensures effect { EffectGrows }
    ensures item { ItemGrows }
    ensures values { ValuesGrow }
    ensures params { ParamsGrow }
    ensures objects { ObjectsGrow }
    ensures declarations { DeclarationsGrow }
{}

/// Declarations that are new fit behind those that do.
pub fn declaration_laws()
    ensures declaration { DeclarationFits }
    ensures types { TypesFit }
    ensures distinct { DistinctGrows }
{}
