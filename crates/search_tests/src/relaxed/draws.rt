//! Numbers that are drawn.

ghost use Rattle.std.specs.Prelude.{◌<◌};

/// Numbers from a seed, by a linear congruential generator with the constants of Knuth's MMIX.
#[derive(Drop)]
pub(super) struct Draws {
    state: u64,
}

impl Draws {
    pub(super) fn new(seed: u64) -> Self {
        Draws { state: seed }
    }

    /// The next number, below this count. The low bits have short periods, and are left out.
    pub(super) fn below(&mut self, count: u64) -> u64
        requires { 0 < count }
        ensures { result < count }
    {
        self.state = self
            .state
            .wrapping_mul(6_364_136_223_846_793_005)
            .wrapping_add(1_442_695_040_888_963_407);
        (self.state >> 33) % count
    }
}
