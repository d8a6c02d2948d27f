//! The hash of a state.

ghost use Rattle.std.specs.Prelude.{◌≡◌};
ghost use Rattle.ground_step.specs.Hash.{hash_of};

use ground_model::State;

/// The odd number nearest to 2^64 divided by the golden ratio (Knuth, The Art of Computer Programming,
/// volume 3, section 6.4, on multiplicative hashing).
const MULTIPLIER: u64 = 11_400_714_819_323_198_485;

/// The hash of a state: each word is taken in by `xor` and multiplied, and the upper half is folded onto
/// the lower in the end.
pub fn hash(state: &State) -> u64
    ensures { result ≡ hash_of state.now }
{
    let mut mixed: u64 = 0;
    for word in state.words() {
        mixed = (mixed ^ *word).wrapping_mul(MULTIPLIER);
    }
    mixed ^ (mixed >> 32)
}
