//! Signals between threads.

use std::sync::atomic::AtomicBool;
use std::sync::atomic::Ordering::SeqCst;
use std::thread::yield_now;

/// The most turns for which a signal is waited for.
const MOST_TURNS: u32 = 10_000_000;

/// A signal that one thread gives, and for which another one waits.
#[derive(Drop)]
pub(crate) struct Signal {
    is_given: AtomicBool,
    is_missed: AtomicBool,
}

impl Signal {
    /// A signal that is not given yet.
    pub(crate) fn new() -> Self {
        Signal {
            is_given: AtomicBool::new(false),
            is_missed: AtomicBool::new(false),
        }
    }

    /// Gives the signal.
    pub(crate) fn give(&self) {
        self.is_given.store(true, SeqCst);
    }

    /// Waits for the signal, in vain after so many turns.
    pub(crate) fn wait(&self) {
        for _ in 0..MOST_TURNS {
            if self.is_given.load(SeqCst) {
                return;
            }
            yield_now();
        }
        self.is_missed.store(true, SeqCst);
    }

    /// Whether the signal was given, and nobody waited for it in vain.
    pub(crate) fn came(&self) -> bool {
        self.is_given.load(SeqCst) && !self.is_missed.load(SeqCst)
    }
}
