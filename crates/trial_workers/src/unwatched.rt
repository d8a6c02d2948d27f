//! Rounds that nobody looks at.

ghost use Rattle.std.specs.Prelude.{◌≡◌};

use crate::reading::Reading;
use crate::watcher::Watcher;

/// The watcher that hears nothing.
#[derive(Clone, Copy, Debug)]
pub struct Unwatched;

impl Watcher for Unwatched {
    ghost tells = { λ old reading new. new ≡ old };

    fn tell(&mut self, _reading: &Reading) {}
}
