//! The laws of readings that are put together, by which the crates above prove what their own calls read.

ghost use Rattle.std.specs.Prelude.{List, ℕ, Bool, Result};
ghost use Rattle.ppddl_model.specs.declared.refusal.TextCode.{TextCode};
ghost use Rattle.ppddl_cursor.specs.declared.place.Place.{Place};
ghost use Rattle.ppddl_cursor.specs.Reading.{Fault, ReaderOfOne};
ghost use Rattle.ppddl_forms.specs.Laws.{ByWordIsRead, OrWordIsRead, RefusedIsRead};
ghost use Rattle.ppddl_forms.specs.Laws.{ManyBehindIsRead, EachToIsRead};

/// What is read of forms is what a walk over them reads step by step, beside `reading_laws` of `ppddl_cursor`.
pub fn sequence_laws<A, B>()
    ensures by_word { (test : List ℕ → Bool) (x y : ReaderOfOne A) → ByWordIsRead test x y }
    ensures or_word { (w : List ℕ) (at : Place → Result A Fault) (other : ReaderOfOne A)
        → OrWordIsRead w at other }
    ensures refused { (code : TextCode) (a : Place) → RefusedIsRead A code a }
    ensures many_behind { (read : ReaderOfOne A) → ManyBehindIsRead read }
    ensures each_to { (one : A → ReaderOfOne A) (finish : A → Place → Result B Fault)
        → EachToIsRead one finish }
{}
