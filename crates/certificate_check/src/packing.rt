//! Rows as packed states in one arena.

ghost use Rattle.std.specs.Prelude.{◌≡◌, ◌+◌, ◌<◌, ◌≤◌, length, map, take, drop, IfOk, IsTrue};
ghost use Rattle.std.specs.List.{All};
ghost use Rattle.std.specs.Ordering.{nat_cmp};
ghost use Rattle.plain_list.specs.Texts.{rises};
ghost use Rattle.ground_model.specs.Packed.{words_for};
ghost use Rattle.certificate_check.specs.Claims.{are_known, is_known, states_of};
ghost use Rattle.certificate_check.specs.GroundRows.{AreWithin};
ghost use Rattle.certificate_check.specs.Packing.{NumbersDiffer, AtomsRise, state_by};

use certificate::Rows;
use ground_model::{GroundProblem, List, State};
use ground_step::{make_all_false, make_false, make_true};
use std::alloc::{AllocError, Global};

/// How many words a state of a problem has.
pub(crate) fn state_width(problem: &GroundProblem) -> usize
    ensures width { result ≡ words_for (length problem.now.atoms) }
    ensures few { result ≤ 16 }
{
    problem.atoms().len().div_ceil(64).max(1)
}

/// A state of so many words.
pub(crate) fn blank(alloc: Global, width: usize) -> Result<State, AllocError>
    ensures { IfOk result (λ state. length state ≡ width) }
{
    let words = vec![in alloc; 0u64; width]?;
    Ok(State::from_words(List::from_vec(words)))
}

/// Writes words into a state of as many.
pub(crate) fn copy_words(words: &[u64], into: &mut State)
    requires { length into.old ≡ length words.now }
    ensures { into.new ≡ words.now }
{
    for (place, word) in words.iter().enumerate() {
        into.set_word(place, *word);
    }
}

/// The states of rows, one behind another, and of each row whether the problem has its atoms.
#[derive(Drop)]
pub(crate) struct PackedRows {
    pub words: Vec<u64>,
    pub known: Vec<bool>,
}

/// How many atoms two rows have in common, from their first on.
fn shared_length(before: &[u32], atoms: &[u32]) -> usize
    ensures within { (result ≤ length before.now) × (result ≤ length atoms.now) }
    ensures shared { take result before.now ≡ take result atoms.now }
{
    let mut count = 0;
    while count < before.len() && count < atoms.len() && before[count] == atoms[count] {
        count += 1;
    }
    count
}

/// Makes the atoms of a row false, from its last one on, until so many of its first are left.
fn pop_atoms(numbers: &[Option<u32>], atoms: &[u32], left: usize, state: &mut State)
    requires within { All (λ i. i < length numbers.now) atoms.now }
    requires differ { NumbersDiffer numbers.now }
    requires rise { IsTrue (rises nat_cmp atoms.now) }
    requires left { left ≤ length atoms.now }
    requires state { state.old ≡ state_by numbers.now atoms.now (length state.old) }
    ensures state { state.new ≡ state_by numbers.now (take left atoms.now) (length state.old) }
{
    let mut place = atoms.len();
    while place > left {
        place -= 1;
        if let Some(number) = numbers[atoms[place] as usize] {
            make_false(state, number);
        }
    }
}

/// Makes the atoms of a row true, from the one in this place on; those that the problem does not have are
/// left out. Whether it has them all.
fn push_atoms(numbers: &[Option<u32>], atoms: &[u32], from: usize, state: &mut State) -> bool
    requires within { All (λ i. i < length numbers.now) atoms.now }
    requires from { from ≤ length atoms.now }
    requires known { IsTrue (are_known numbers.now (take from atoms.now)) }
    requires state { state.old ≡ state_by numbers.now (take from atoms.now) (length state.old) }
    ensures state { state.new ≡ state_by numbers.now atoms.now (length state.old) }
    ensures known { result ≡ are_known numbers.now atoms.now }
{
    let mut is_known = true;
    for place in from..atoms.len() {
        match numbers[atoms[place] as usize] {
            None => is_known = false,
            Some(number) => make_true(state, number),
        }
    }
    is_known
}

/// Turns the state of a row into that of the next one, in which the next one's atoms are true and no other.
/// The bits of what the two begin with stay, if the problem has all atoms of the row before. Whether it has
/// all of the next.
fn turn_state(
    numbers: &[Option<u32>],
    before: &[u32],
    was_known: bool,
    atoms: &[u32],
    state: &mut State,
) -> bool
    requires before { All (λ i. i < length numbers.now) before.now }
    requires within { All (λ i. i < length numbers.now) atoms.now }
    requires differ { NumbersDiffer numbers.now }
    requires rise { IsTrue (rises nat_cmp before.now) }
    requires known { was_known ≡ are_known numbers.now before.now }
    requires state { state.old ≡ state_by numbers.now before.now (length state.old) }
    ensures state { state.new ≡ state_by numbers.now atoms.now (length state.old) }
    ensures known { result ≡ are_known numbers.now atoms.now }
{
    let shared = if was_known {
        shared_length(before, atoms)
    } else {
        0
    };
    pop_atoms(numbers, before, shared, state);
    push_atoms(numbers, atoms, shared, state)
}

/// The states of rows, in `width` words each, by the numbers of their table's atoms.
pub(crate) fn pack_rows(
    alloc: Global,
    numbers: &[Option<u32>],
    width: usize,
    rows: &Rows,
) -> Result<PackedRows, AllocError>
    requires within { AreWithin (length numbers.now) rows.now }
    requires differ { NumbersDiffer numbers.now }
    requires rise { AtomsRise rows.now }
    ensures words { IfOk result (λ p. p.words.items ≡ states_of numbers.now width rows.now) }
    ensures known { IfOk result (λ p. p.known.items ≡ map (is_known numbers.now) rows.now) }
{
    let mut words = Vec::with_capacity(alloc, rows.len().saturating_mul(width))?;
    let mut known = Vec::with_capacity(alloc, rows.len())?;
    let mut state = blank(alloc, width)?;
    make_all_false(&mut state);
    let mut before: &[u32] = &[];
    let mut is_known = true;
    for place in 0..rows.len() {
        let atoms = rows.row(place).atoms;
        is_known = turn_state(numbers, before, is_known, atoms, &mut state);
        words.extend_from_slice(state.words())?;
        known.push(is_known)?;
        before = atoms;
    }
    Ok(PackedRows { words, known })
}

/// So many words from a place on.
pub(crate) fn piece(words: &[u64], from: usize, width: usize) -> &[u64]
    requires { from + width ≤ length words.now }
    ensures { result.now ≡ take width (drop from words.now) }
{
    &words[from..from + width]
}
