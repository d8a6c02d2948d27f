//! What a line asks.

ghost use Rattle.std.specs.Prelude.{◌≡◌, ◌≤◌, ◌<◌, length};
ghost use Rattle.ground_step.specs.Names.{place_of};
ghost use Rattle.bound_core.specs.Core.{width};
ghost use Rattle.policy_server.specs.declared.limits.TheConstants.{MOST_LINE};
ghost use Rattle.policy_server.specs.Queries.{query_of};
ghost use Rattle.policy_server.specs.Parts.{IsPlace, IsTextRoom, AddsAtom, TellsAtom, TellsAtoms, Reads};

use crate::byte_buffer::ByteBuffer;
use crate::place::Place;
use crate::tokens::{Next, read_next};
use ground_model::{GroundProblem, State};
use ground_step::{atom_number, make_all_false, make_true};
use ppddl_lex::{is_name, is_same_word};

/// What a line asks.
#[derive(Clone, Copy)]
pub(crate) enum Asked {
    /// It is no query.
    NoQuery,
    /// It names an atom that the problem has not.
    NoAtom,
    /// A state, which was written.
    State,
}

/// Reads an atom behind its first parenthesis, and writes its text: its names in small letters, with one
/// blank between two. None: it has another form.
fn read_atom(line: &[u8], place: Place, text: &mut ByteBuffer) -> Option<Place>
    requires short { length line.now ≤ MOST_LINE }
    requires at { IsPlace line.now place }
    requires behind { 0 < place.offset }
    requires room { IsTextRoom text.old }
    ensures told { TellsAtom line.now place text.new.bytes result }
    ensures room { IsTextRoom text.new }
{
    let Next::Word(from, mut place) = read_next(line, place) else {
        return None;
    };
    let word = &line[from..place.offset];
    if !is_name(word) {
        return None;
    }
    text.clear();
    text.push(b'(');
    text.extend_lowered(word);
    loop {
        match read_next(line, place) {
            Next::Right(behind) => {
                text.push(b')');
                return Some(behind);
            }
            Next::Word(from, behind) => {
                let word = &line[from..behind.offset];
                if !is_name(word) {
                    return None;
                }
                text.push(b' ');
                text.extend_lowered(word);
                place = behind;
            }
            _ => return None,
        }
    }
}

/// Makes the atom with this text true, and answers whether there is one.
fn add_atom(problem: &GroundProblem, text: &[u8], state: &mut State) -> bool
    ensures { AddsAtom (place_of problem.now.atoms text.now) result state.old state.new }
{
    match atom_number(problem, text) {
        None => false,
        Some(atom) => {
            make_true(state, atom);
            true
        }
    }
}

/// Reads the atoms of a query, from a place behind its first word, and writes the state in which they are
/// true.
fn read_atoms(
    problem: &GroundProblem,
    line: &[u8],
    place: Place,
    text: &mut ByteBuffer,
    state: &mut State,
) -> Asked
    requires short { length line.now ≤ MOST_LINE }
    requires at { IsPlace line.now place }
    requires room { IsTextRoom text.old }
    requires state { length state.old ≡ width problem.now }
    ensures told { TellsAtoms problem.now line.now place result state.new }
    ensures room { IsTextRoom text.new }
    ensures state { length state.new ≡ width problem.now }
{
    make_all_false(state);
    let mut known = true;
    let mut place = place;
    loop {
        match read_next(line, place) {
            Next::Left(behind) => {
                let Some(after) = read_atom(line, behind, text) else {
                    return Asked::NoQuery;
                };
                let is_atom = add_atom(problem, text.bytes(), state);
                known = known && is_atom;
                place = after;
            }
            Next::End if known => return Asked::State,
            Next::End => return Asked::NoAtom,
            _ => return Asked::NoQuery,
        }
    }
}

/// Reads a line, and writes the state that it asks for.
pub(crate) fn read_query(
    problem: &GroundProblem,
    line: &[u8],
    text: &mut ByteBuffer,
    state: &mut State,
) -> Asked
    requires short { length line.now ≤ MOST_LINE }
    requires room { IsTextRoom text.old }
    requires state { length state.old ≡ width problem.now }
    ensures read { Reads result state.new (query_of problem.now line.now) }
    ensures room { IsTextRoom text.new }
    ensures state { length state.new ≡ width problem.now }
{
    let begin = Place { offset: 0, row: 1 };
    match read_next(line, begin) {
        Next::Word(from, behind) if is_same_word(&line[from..behind.offset], b"state") => {
            read_atoms(problem, line, behind, text, state)
        }
        _ => Asked::NoQuery,
    }
}
