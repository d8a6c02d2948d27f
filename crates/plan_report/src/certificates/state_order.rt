//! The order of states by the numbers of the atoms that hold in them.

ghost use Rattle.std.specs.Prelude.{◌≡◌, ◌≢◌, ◌+◌, ◌*◌, ◌^◌, ◌<◌, get_or};
ghost use Rattle.std.specs.Bool.{MatchBool};
ghost use Rattle.plain_list.specs.Texts.{compare_texts};
ghost use Rattle.ground_step.specs.Atoms.{true_atoms};
ghost use Rattle.plan_report.specs.certificates.Order.{AgreeBelow, HasAtomFrom, HasNoneFrom};

use ground_model::State;
use std::cmp::Ordering;

/// The word in a place. One past the last is 0.
fn word_at(words: &[u64], place: usize) -> u64
    ensures { result ≡ get_or words.now place 0 }
{
    if place < words.len() {
        return words[place];
    }
    0
}

/// Whether some bit of a word from this one on, or of a later word, is set.
fn goes_on(words: &[u64], place: usize, bit: u32) -> bool
    requires { bit < 64 }
    ensures { MatchBool result
        (HasAtomFrom words.now (64 * place + bit)) (HasNoneFrom words.now (64 * place + bit)) }
{
    if word_at(words, place) >> bit != 0 {
        return true;
    }
    for later in place..words.len() {
        if later > place && words[later] != 0 {
            return true;
        }
    }
    false
}

/// The order of the lists of atoms of two states that are first apart in a word: they are alike up to the lowest bit
/// that differs. The state that has it comes first if the other goes on behind it, since the other's next atom is a
/// greater one; else the other's list has ended, and comes first.
fn order_from(ours: &[u64], theirs: &[u64], place: usize) -> Ordering
    requires before { AgreeBelow ours.now theirs.now place }
    requires apart { get_or ours.now place 0 ≢ get_or theirs.now place 0 }
    ensures { result ≡ compare_texts (true_atoms ours.now) (true_atoms theirs.now) }
{
    let word = word_at(ours, place);
    let apart = word ^ word_at(theirs, place);
    let bit = apart.trailing_zeros();
    if (word >> bit) & 1 == 1 {
        if goes_on(theirs, place, bit) {
            Ordering::Less
        } else {
            Ordering::Greater
        }
    } else if goes_on(ours, place, bit) {
        Ordering::Greater
    } else {
        Ordering::Less
    }
}

/// The order of two states: that of the lists of the numbers of the atoms that hold in them, in rising order.
pub(super) fn compare_states(first: &State, second: &State) -> Ordering
    ensures { result ≡ compare_texts (true_atoms first.now) (true_atoms second.now) }
{
    let ours = first.words();
    let theirs = second.words();
    for place in 0..ours.len().max(theirs.len()) {
        if word_at(ours, place) != word_at(theirs, place) {
            return order_from(ours, theirs, place);
        }
    }
    Ordering::Equal
}
