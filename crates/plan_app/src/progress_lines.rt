//! Lines that tell how a search goes on.

ghost use Rattle.std.specs.Prelude.{◌≡◌, false, flat_map, OnOk, OnErr};
ghost use Rattle.std.specs.Io.KnownBytes.{Appends};
ghost use Rattle.shelf_io.specs.Causes.{HasCause};
ghost use Rattle.shelf_io.specs.Streams.{PutsPrefix};
ghost use Rattle.plan_app.specs.Progress.{progress_line, TellsLine};

use itoa::Buffer;
use plan_report::put_units;
use shelf_io::{Failed, Sink, put_all};
use trial_workers::{Reading, Watcher};

/// Puts a line for each reading that it is told of, while it is live: from when lines are asked for until a put fails.
#[derive(Drop)]
pub struct ProgressLines<P> {
    /// Where the lines are put.
    pub sink: P,
    /// Whether lines are asked for, and no put has failed.
    pub live: bool,
}

impl<P> ProgressLines<P> {
    /// Lines that go to this sink. They are not live yet.
    pub fn make(sink: P) -> Self
        ensures sink { result.sink ≡ sink }
        ensures still { result.live ≡ false }
    {
        ProgressLines { sink, live: false }
    }
}

impl<P: Sink> Watcher for ProgressLines<P> {
    ghost tells = { TellsLine P.taken P.faults };

    fn tell(&mut self, reading: &Reading) {
        if !self.live {
            return;
        }
        self.live = put_line(&mut self.sink, reading).is_ok();
    }
}

/// Puts pieces, one behind the other.
fn put_pieces<P: Sink>(sink: &mut P, pieces: &[&[u8]]) -> Result<(), Failed>
    ensures all { OnOk result (Appends (P.taken sink.old) (P.taken sink.new)
        (flat_map (λ piece. piece.now) pieces.now)) }
    ensures prefix { OnErr result (PutsPrefix (P.taken sink.old) (P.taken sink.new)
        (flat_map (λ piece. piece.now) pieces.now)) }
    ensures cause { HasCause (P.faults sink.old) (P.faults sink.new) result }
{
    for piece in pieces {
        put_all(sink, piece)?;
    }
    Ok(())
}

/// Puts the line of a reading. It takes no memory.
fn put_line<P: Sink>(sink: &mut P, reading: &Reading) -> Result<(), Failed>
    ensures all { OnOk result (Appends (P.taken sink.old) (P.taken sink.new)
        (progress_line reading.now)) }
    ensures prefix { OnErr result (PutsPrefix (P.taken sink.old) (P.taken sink.new)
        (progress_line reading.now)) }
    ensures cause { HasCause (P.faults sink.old) (P.faults sink.new) result }
{
    let mut rounds = Buffer::new();
    let mut states = Buffer::new();
    let mut lower = [0; 24];
    let mut upper = [0; 24];
    let lower_end = put_units(reading.solved.lower, &mut lower);
    let upper_end = put_units(reading.solved.upper, &mut upper);
    let pieces: [&[u8]; 9] = [
        b"round ",
        rounds.format(u64::from(reading.solved.rounds)).as_bytes(),
        b" interval ",
        &lower[..lower_end],
        b" ",
        &upper[..upper_end],
        b" states ",
        states.format(u64::from(reading.states)).as_bytes(),
        b"\n",
    ];
    put_pieces(sink, pieces.as_slice())
}
