//! The laws of readers, by which the crates above prove what their own calls read.

ghost use Rattle.std.specs.Prelude.{List, ℕ, Bool, Result};
ghost use Rattle.ppddl_model.specs.declared.refusal.TextCode.{TextCode};
ghost use Rattle.ppddl_cursor.specs.Reading.{Fault, ReaderOfWord, ReaderOfOne, ReaderOfRest};
ghost use Rattle.ppddl_cursor.specs.Laws.{WordIsRead, WordOrGroupIsRead};
ghost use Rattle.ppddl_cursor.specs.Laws.{CheckingIsRead, RefusedIfIsRead, LocatedIsRead};
ghost use Rattle.ppddl_cursor.specs.Laws.{GroupIsRead, KeywordGroupIsRead};
ghost use Rattle.ppddl_cursor.specs.Laws.{OneThenIsRead, GivingIsRead, LastIsRead, OptionalIsRead};
ghost use Rattle.ppddl_cursor.specs.Laws.{EachIsRead, AddingIsRead, ManyIsRead};
ghost use Rattle.ppddl_cursor.specs.Laws.{OneThenOfText, LastOfText, EachOfText};

/// What is read of forms is what a walk over them reads step by step, whatever is made of each form.
pub fn reading_laws<A, B>()
    ensures word { (read : ReaderOfWord A) → WordIsRead read }
    ensures word_or_group { (word other : ReaderOfOne A) → WordOrGroupIsRead word other }
    ensures checking { (test : A → Result B Fault) (read : ReaderOfOne A)
        → CheckingIsRead test read }
    ensures refused_if { (test : Bool) (code : TextCode) (read : ReaderOfOne A)
        → RefusedIfIsRead test code read }
    ensures located { (read : ReaderOfOne A) → LocatedIsRead read }
    ensures group { (read : ReaderOfRest A) → GroupIsRead read }
    ensures keyword_group { (w : List ℕ) (read : ReaderOfRest A) → KeywordGroupIsRead w read }
    ensures one_then { (first : ReaderOfOne A) (others : A → ReaderOfRest B)
        → OneThenIsRead first others }
    ensures giving { (make : A → B) (read : ReaderOfRest A) → GivingIsRead make read }
    ensures last { (x : A) → LastIsRead x }
    ensures optional { (x : A) (read : ReaderOfRest A) → OptionalIsRead x read }
    ensures each { (one : A → ReaderOfOne A) → EachIsRead one }
    ensures adding { (one : List A → ReaderOfOne A) → AddingIsRead one }
    ensures many { (read : ReaderOfOne A) → ManyIsRead read }
    ensures one_then_of_text { (first : ReaderOfOne A) (others : A → ReaderOfRest B)
        → OneThenOfText first others }
    ensures last_of_text { (x : A) → LastOfText x }
    ensures each_of_text { (one : A → ReaderOfOne A) → EachOfText one }
{}
