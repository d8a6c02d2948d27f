//! Who looks on while rounds are made.

use crate::reading::Reading;

/// Who is told of rounds while they are made.
pub trait Watcher {
    ghost use Rattle.trial_workers.specs.declared.reading.Reading.{Reading};

    /// What a watcher becomes when it is told of a reading.
    ghost tells: { Self → Reading → Self → Type 0 };

    /// Tells of a reading. It fails nowhere: a watcher that has lost its reader keeps still.
    fn tell(&mut self, reading: &Reading)
        ensures { tells self.old reading.now self.new };
}
