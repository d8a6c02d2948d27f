//! The hash of a state by which hints stand.

use ground_model::State;

/// The first multiplier of the finalizer `fmix64` of MurmurHash3 (Austin Appleby, in the public domain).
const MULTIPLIER: u64 = 0xff51_afd7_ed55_8ccd;

/// Takes a word into a hash: one step of `fmix64`. A product carries upwards alone, so its upper bits are
/// folded onto the lower ones, from where the next product spreads them.
pub(crate) fn mix(hash: u64, word: u64) -> u64 {
    let product = (hash ^ word).wrapping_mul(MULTIPLIER);
    product ^ (product >> 33)
}

/// The hash once all words are taken in: one step more, by which the last word reaches the upper bits too.
pub(crate) fn finish(hash: u64) -> u64 {
    mix(hash, 0)
}

/// The hash of a state.
pub(crate) fn mix_state(state: &State) -> u64 {
    let mut hash = 0;
    for word in state.words() {
        hash = mix(hash, *word);
    }
    finish(hash)
}
