//! The server.

ghost use Rattle.std.specs.Prelude.{◌≡◌, cond};
ghost use Rattle.shelf_io.specs.Causes.{one_more};
ghost use Rattle.word_table.specs.Seen.{IsOf};
ghost use Rattle.policy_server.specs.Serving.{input, is_write_fault, IsRun};
ghost use Rattle.policy_server.specs.Parts.{IsBufferOf, turn_after, TellsTurn, TurnFaults};

use crate::answering::answer_line;
use crate::ending::Turn;
use crate::limits::MOST_QUERIES;
use crate::line::Line;
use crate::query_buffer::QueryBuffer;
use crate::serve_end::ServeEnd;
use crate::served::Served;
use crate::taking::take_line;
use shelf_io::{Failed, Sink, Source, put_all};
use word_table::{Pass, Words};

/// What is put for a line that is too long.
const LONG_LINE: &[u8] = b"error line\n";

/// The turn, if what it put was put whole.
fn unless_failed(put: Result<(), Failed>, turn: Turn) -> Turn
    ensures { result ≡ turn_after put turn }
{
    match put {
        Ok(()) => turn,
        Err(Failed) => Turn::Stopped(ServeEnd::WriteFault),
    }
}

/// Takes a line and answers it.
fn take_turn<I: Source, O: Sink>(
    source: &mut I,
    sink: &mut O,
    words: &Words<'_>,
    pass: &mut Pass,
    buffer: &mut QueryBuffer,
) -> Turn
    requires here { IsOf words.now pass.old }
    requires buffer { IsBufferOf words.now.problem buffer.old }
    ensures told { let from = input I.left I.ends I.faults source.old
        in let to = input I.left I.ends I.faults source.new
        in TellsTurn words.now pass.old pass.new from to (O.taken sink.old) (O.taken sink.new) result }
    ensures faults { TurnFaults (O.faults sink.old) (O.faults sink.new) result }
    ensures buffer { IsBufferOf words.now.problem buffer.new }
{
    match take_line(source, &mut buffer.line) {
        Line::Whole => unless_failed(answer_line(sink, words, pass, buffer), Turn::Answered),
        Line::Last if buffer.line.bytes().is_empty() => Turn::Stopped(ServeEnd::Input),
        Line::Last => unless_failed(answer_line(sink, words, pass, buffer), Turn::AnsweredLast),
        Line::Long => unless_failed(put_all(sink, LONG_LINE), Turn::Stopped(ServeEnd::LongLine)),
        Line::Fault => Turn::Stopped(ServeEnd::ReadFault),
    }
}

/// Answers queries line by line, each by what the pass finds of the state that it asks for.
///
/// A byte is taken at a time: a longer piece could hold bytes behind the last query that is answered, which
/// are left to the caller. It takes no memory and does not wait for anyone but source and sink. It ends, since
/// no more than `MOST_QUERIES` lines of `MOST_LINE` bytes with their line feeds are taken, and one byte more.
pub fn serve<I: Source, O: Sink>(
    source: &mut I,
    sink: &mut O,
    words: &Words<'_>,
    pass: &mut Pass,
    buffer: &mut QueryBuffer,
) -> Served
    requires here { IsOf words.now pass.old }
    requires buffer { IsBufferOf words.now.problem buffer.old }
    ensures run { let from = input I.left I.ends I.faults source.old
        in let to = input I.left I.ends I.faults source.new
        in IsRun words.now pass.old pass.new from to (O.taken sink.old) (O.taken sink.new) result }
    ensures faults { O.faults sink.new
        ≡ cond (is_write_fault result.end) (one_more (O.faults sink.old)) (O.faults sink.old) }
    ensures buffer { IsBufferOf words.now.problem buffer.new }
{
    for queries in 0..MOST_QUERIES {
        match take_turn(source, sink, words, pass, buffer) {
            Turn::Answered => {}
            Turn::AnsweredLast if queries + 1 < MOST_QUERIES => {
                return Served {
                    end: ServeEnd::Input,
                    queries: queries + 1,
                };
            }
            Turn::AnsweredLast => {
                return Served {
                    end: ServeEnd::Queries,
                    queries: MOST_QUERIES,
                };
            }
            Turn::Stopped(end) => return Served { end, queries },
        }
    }
    Served {
        end: ServeEnd::Queries,
        queries: MOST_QUERIES,
    }
}
