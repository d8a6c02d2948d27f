//! Terms and atoms.

ghost use Rattle.std.specs.Prelude.{◌≡◌, ◌<◌, slice_get, is_some, OnOk};
ghost use Rattle.ppddl_cursor.specs.Ahead.{size};
ghost use Rattle.ppddl_cursor.specs.Reading.{Gives, ReadsOne, ReadsRest};
ghost use Rattle.ppddl_forms.specs.Terms.{term_kinds, plain_term, term, fitted, argument};
ghost use Rattle.ppddl_forms.specs.Terms.{arguments, applied, atom_in, atom};

use crate::name::Name;
use crate::names::{Names, Scope};
use crate::words::read_name;
use ppddl_cursor::{Cursor, Place};
use ppddl_lex::{is_name, is_variable};
use ppddl_model::{Atom, List, Param, Term, Text, TextCode, TextRefusal};
use std::alloc::Global;
use std::slice;

/// Reads a variable or a name.
#[tactic(auto, using(crate::proofs::Steps::form_steps), unfolding(crate::specs::Terms::plain_term))]
fn read_plain_term(alloc: Global, cursor: &mut Cursor<'_>) -> Result<Term, TextRefusal>
    ensures gives { ReadsOne plain_term cursor.old cursor.new result }
    ensures fewer { OnOk result (size cursor.new < size cursor.old) }
{
    cursor.word_ahead()?;
    let text = cursor.lowered_word(alloc)?;
    if is_variable(text.as_slice()) {
        cursor.advance();
        return Ok(Term::Variable(text));
    }
    if is_name(text.as_slice()) {
        cursor.advance();
        return Ok(Term::Object(text));
    }
    Err(cursor.refusal(TextCode::Expected))
}

/// Whether a variable is in sight, or an object is declared.
fn is_in_sight(names: &Names, scope: &Scope, term: &Term) -> bool
    ensures { result ≡ is_some (term_kinds names.now scope.now term.now) }
{
    match term {
        Term::Variable(name) => scope.kinds_of(name.as_slice()).is_some(),
        Term::Object(name) => names.kind_of(name.as_slice()).is_some(),
    }
}

/// Reads a term in sight.
#[tactic(auto, using(crate::proofs::Steps::form_steps), unfolding(crate::specs::Terms::term))]
pub(crate) fn read_term(
    alloc: Global,
    cursor: &mut Cursor<'_>,
    names: &Names,
    scope: &Scope,
) -> Result<Term, TextRefusal>
    ensures gives { ReadsOne (term names.now scope.now) cursor.old cursor.new result }
    ensures fewer { OnOk result (size cursor.new < size cursor.old) }
{
    let place = cursor.place();
    let term = read_plain_term(alloc, cursor)?;
    if !is_in_sight(names, scope, &term) {
        return Err(place.refusal(TextCode::UnknownName));
    }
    Ok(term)
}

/// A term of these types, where it fits the parameter in its place.
fn fitting(
    names: &Names,
    params: &[Param],
    index: usize,
    kinds: &[Text],
    term: Term,
    place: Place,
) -> Result<Term, TextRefusal>
    ensures { Gives (λ t. t) result
        (fitted names.now (term, place) kinds.now (slice_get params.now index)) }
{
    let Some(param) = params.get(index) else {
        return Err(place.refusal(TextCode::Arity));
    };
    if !names.fits(kinds, param) {
        return Err(place.refusal(TextCode::TypeMismatch));
    }
    Ok(term)
}

/// Reads the argument of a parameter, of which there may be too few.
#[tactic(auto, using(crate::proofs::Steps::form_steps), unfolding(crate::specs::Terms::argument))]
fn read_argument(
    alloc: Global,
    cursor: &mut Cursor<'_>,
    names: &Names,
    scope: &Scope,
    params: &[Param],
    index: usize,
) -> Result<Term, TextRefusal>
    ensures gives { ReadsOne (argument names.now scope.now (slice_get params.now index))
        cursor.old cursor.new result }
    ensures fewer { OnOk result (size cursor.new < size cursor.old) }
{
    let place = cursor.place();
    match read_plain_term(alloc, cursor)? {
        Term::Variable(name) => {
            let Some(kinds) = scope.kinds_of(name.as_slice()) else {
                return Err(place.refusal(TextCode::UnknownName));
            };
            fitting(names, params, index, kinds, Term::Variable(name), place)
        }
        Term::Object(name) => {
            let Some(kind) = names.kind_of(name.as_slice()) else {
                return Err(place.refusal(TextCode::UnknownName));
            };
            let kind = Text::from_slice(alloc, kind)?;
            let kinds = slice::from_ref(&kind);
            fitting(names, params, index, kinds, Term::Object(name), place)
        }
    }
}

/// Reads one argument for each parameter, and the `)` behind them.
#[tactic(auto, using(crate::proofs::TermSteps::argument_steps))]
fn read_arguments(
    alloc: Global,
    cursor: &mut Cursor<'_>,
    names: &Names,
    scope: &Scope,
    params: &[Param],
) -> Result<List<Term>, TextRefusal>
    ensures gives { ReadsRest (arguments names.now scope.now params.now)
        cursor.old cursor.new result }
    ensures fewer { OnOk result (size cursor.new < size cursor.old) }
{
    let mut args = Vec::new(alloc);
    while cursor.has_form() {
        let arg = read_argument(alloc, cursor, names, scope, params, args.len())?;
        args.push(arg)?;
    }
    if args.len() != params.len() {
        return Err(cursor.refusal(TextCode::Arity));
    }
    cursor.close()?;
    Ok(List::from_vec(args))
}

/// Reads the arguments of a predicate or a function with this name and these parameters, and the `)`
/// behind them.
#[tactic(auto, using(crate::proofs::Steps::form_steps), unfolding(crate::specs::Terms::applied))]
pub(crate) fn read_application(
    alloc: Global,
    cursor: &mut Cursor<'_>,
    names: &Names,
    scope: &Scope,
    name: Name,
    params: &[Param],
) -> Result<Atom, TextRefusal>
    ensures gives { ReadsRest (applied names.now scope.now name params.now)
        cursor.old cursor.new result }
    ensures fewer { OnOk result (size cursor.new < size cursor.old) }
{
    let args = read_arguments(alloc, cursor, names, scope, params)?;
    Ok(Atom {
        predicate: name.text,
        args,
    })
}

/// Reads `NAME TERM* )` of a declared predicate.
#[tactic(auto, using(crate::proofs::Steps::form_steps), unfolding(crate::specs::Terms::atom_in, crate::specs::Terms::application))]
pub fn read_atom_in(
    alloc: Global,
    cursor: &mut Cursor<'_>,
    names: &Names,
    scope: &Scope,
) -> Result<Atom, TextRefusal>
    ensures gives { ReadsRest (atom_in names.now scope.now) cursor.old cursor.new result }
    ensures fewer { OnOk result (size cursor.new < size cursor.old) }
{
    let name = read_name(alloc, cursor)?;
    let Some(predicate) = names.predicate(name.text.as_slice()) else {
        return Err(name.place.refusal(TextCode::UnknownName));
    };
    let params = predicate.params.as_slice();
    read_application(alloc, cursor, names, scope, name, params)
}

/// Reads `( NAME TERM* )` of a declared predicate.
#[tactic(auto, using(crate::proofs::Steps::form_steps), unfolding(crate::specs::Terms::atom))]
pub fn read_atom(
    alloc: Global,
    cursor: &mut Cursor<'_>,
    names: &Names,
    scope: &Scope,
) -> Result<Atom, TextRefusal>
    ensures gives { ReadsOne (atom names.now scope.now) cursor.old cursor.new result }
    ensures fewer { OnOk result (size cursor.new < size cursor.old) }
{
    cursor.open()?;
    read_atom_in(alloc, cursor, names, scope)
}
