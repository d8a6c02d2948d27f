//! The level that is gone through.

ghost use Rattle.std.specs.Prelude.{◌≡◌, ◌≢◌, ◌<◌, ◌^◌, suc};

/// The states that are in near `depth` are the first `level` of those that are listed.
#[derive(Clone, Copy)]
pub(super) struct Front {
    pub(super) level: usize,
    pub(super) depth: u32,
}

impl Front {
    /// Where the next state is the first behind the level, the level behind is complete: it ends with the
    /// listed states.
    pub(super) fn reach(self, next: usize, listed: usize) -> Front
        requires { suc self.depth < 2 ^ 32 }
        ensures up { next ≡ self.level → (result.level ≡ listed) × (result.depth ≡ suc self.depth) }
        ensures same { next ≢ self.level → result ≡ self }
    {
        if next == self.level {
            Front {
                level: listed,
                depth: self.depth + 1,
            }
        } else {
            self
        }
    }
}
