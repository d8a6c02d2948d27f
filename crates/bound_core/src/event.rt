//! What workers do to the shared bounds, one atomic step at a time.

use fixed_round::UpperWord;

/// One step of a worker. `specs/Events.antt` says where each is allowed, and what it changes.
#[derive(Clone, Copy, Debug, PartialEq, Eq)]
pub enum Event {
    /// The worker sees the lower number of an id.
    SeeLower {
        worker: u32,
        id: u32,
    },
    /// The worker sees the upper word of an id.
    SeeUpper {
        worker: u32,
        id: u32,
    },
    /// The worker raises the lower number of an id, in micro-units.
    Raise {
        worker: u32,
        id: u32,
        value: u64,
    },
    /// The worker sinks the upper word of an id.
    Sink {
        worker: u32,
        id: u32,
        upper: UpperWord,
    },
    /// The worker takes the next id as its spare.
    Claim {
        worker: u32,
    },
    /// The worker writes a word of its spare's state.
    Write {
        worker: u32,
        place: u32,
        word: u64,
    },
    /// The worker makes its spare known to all who look.
    Publish {
        worker: u32,
    },
    /// The worker looks, and may learn that an id is published.
    Look {
        worker: u32,
        id: Option<u32>,
    },
    /// A worker with the next number begins with what the worker knows and has seen.
    Split {
        worker: u32,
    },
    /// The worker learns what another one knows and has seen, and the other one ends.
    Join {
        worker: u32,
        other: u32,
    },
}
