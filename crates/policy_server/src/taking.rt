//! Lines as they are taken.

ghost use Rattle.std.specs.Prelude.{◌≡◌};
ghost use Rattle.policy_server.specs.declared.limits.TheConstants.{MOST_LINE};
ghost use Rattle.policy_server.specs.Serving.{input};
ghost use Rattle.policy_server.specs.Parts.{TellsByte, TellsLine};

use crate::byte_buffer::ByteBuffer;
use crate::limits::MOST_LINE;
use crate::line::Line;
use shelf_io::Source;

/// What a take of one byte gave.
#[derive(Clone, Copy)]
pub(crate) enum Taken {
    /// A byte.
    Byte(u8),
    /// The end of the input.
    End,
    /// A fault.
    Fault,
}

/// Takes one byte.
fn take_byte<I: Source>(source: &mut I) -> Taken
    ensures { TellsByte (input I.left I.ends I.faults source.old)
        (input I.left I.ends I.faults source.new) result }
{
    let mut piece = [0; 1];
    match source.take(&mut piece) {
        Ok(0) => Taken::End,
        Ok(_) => Taken::Byte(piece[0]),
        Err(_) => Taken::Fault,
    }
}

/// Takes a line, byte by byte, so that no byte behind it is taken.
pub(crate) fn take_line<I: Source>(source: &mut I, line: &mut ByteBuffer) -> Line
    requires { line.old.room ≡ MOST_LINE }
    ensures told { TellsLine (input I.left I.ends I.faults source.old)
        (input I.left I.ends I.faults source.new) line.new.bytes result }
    ensures room { line.new.room ≡ MOST_LINE }
{
    line.clear();
    for _turn in 0..MOST_LINE {
        match take_byte(source) {
            Taken::Byte(b'\n') => return Line::Whole,
            Taken::Byte(byte) => line.push(byte),
            Taken::End => return Line::Last,
            Taken::Fault => return Line::Fault,
        }
    }
    // The line has as many bytes as it may have. Only its end may come.
    match take_byte(source) {
        Taken::Byte(b'\n') => Line::Whole,
        Taken::Byte(_) => Line::Long,
        Taken::End => Line::Last,
        Taken::Fault => Line::Fault,
    }
}
