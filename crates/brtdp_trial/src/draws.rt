//! The draws of a trial, from a stream of ChaCha with 8 rounds.

ghost use Rattle.std.specs.Prelude.{◌≡◌, ◌+◌, ◌<◌, ◌^◌};
ghost use Rattle.brtdp_trial.specs.Draws.{draw_of, key_bytes, four_words_at};

use rand_chacha::ChaCha8Rng;
use rand_core::SeedableRng;
use rand_core::utils::NextWord;
use std::marker::Model;

/// The draws of one trial, or of whatever else is drawn by its number. Contracts see the seed, the number and the
/// number of the next draw.
#[derive(Drop)]
pub struct Draws {
    rng: ChaCha8Rng,
    seed: u64,
    number: u64,
    next: u64,
}

impl Model for Draws {
    ghost use Rattle.std.specs.Prelude.{◌≡◌};
    ghost use Rattle.brtdp_trial.specs.Draws.{Place, generator};

    ghost Value = { Place };

    ghost view = { λ d. record { seed = d.seed; number = d.number; next = d.next } };

    ghost invariant = { λ d. d.rng ≡ generator d.seed d.number d.next };
}

impl Draws {
    /// The draws of the trial with this number: the seed is the key of the stream, and the number its stream.
    pub fn new(seed: u64, number: u64) -> Self
        ensures { result ≡ record { seed = seed; number = number; next = 0 } }
    {
        let mut rng = ChaCha8Rng::from_seed(key_of_seed(seed));
        rng.set_stream(number);
        Draws {
            rng,
            seed,
            number,
            next: 0,
        }
    }

    /// The next draw: four words of the stream as one number below 2^128, the first most significant.
    pub fn draw(&mut self) -> u128
        requires { self.old.next < 2 ^ 33 }
        ensures value { result ≡ draw_of self.old.seed self.old.number self.old.next }
        ensures next { self.new ≡ record self.old { next = self.old.next + 1 } }
    {
        let result = four_words(&mut self.rng);
        self.next += 1;
        result
    }
}

/// The seed's 8 bytes, least first, and 24 zero bytes.
fn key_of_seed(seed: u64) -> [u8; 32]
    ensures { result ≡ key_bytes seed }
{
    let b = seed.to_le_bytes();
    [
        b[0], b[1], b[2], b[3], b[4], b[5], b[6], b[7], 0, 0, 0, 0, 0, 0, 0, 0, 0, 0, 0, 0, 0, 0,
        0, 0, 0, 0, 0, 0, 0, 0, 0, 0,
    ]
}

/// Four words as one number, the first most significant.
fn four_words(rng: &mut ChaCha8Rng) -> u128
    requires { rng.old.word_pos + 4 < 2 ^ 68 }
    ensures value { result ≡ four_words_at rng.old.key rng.old.stream rng.old.word_pos }
    ensures next { rng.new ≡ record rng.old { word_pos = rng.old.word_pos + 4 } }
{
    let a = u128::from(rng.next_word());
    let b = u128::from(rng.next_word());
    let c = u128::from(rng.next_word());
    let d = u128::from(rng.next_word());
    a * 0x1_0000_0000_0000_0000_0000_0000 + b * 0x1_0000_0000_0000_0000 + c * 0x1_0000_0000 + d
}
