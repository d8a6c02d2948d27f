//! Answers as bytes.

ghost use Rattle.std.specs.Prelude.{◌≡◌, ◌≤◌, ◌+◌, ◌++◌, length};
ghost use Rattle.plan_report.specs.Units.{units};
ghost use Rattle.word_table.specs.Seen.{IsOf};
ghost use Rattle.policy_server.specs.Replies.{act_text, interval_text};
ghost use Rattle.policy_server.specs.Parts.{IsReplyRoom, IsBufferOf, answer_text, TellsReply};
ghost use Rattle.shelf_io.specs.Causes.{HasCause};

use crate::answer::Answer;
use crate::byte_buffer::ByteBuffer;
use crate::looking::answer_to;
use crate::query_buffer::QueryBuffer;
use bound_core::{AT_GOAL, GIVE_UP};
use bound_words::Interval;
use ground_model::GroundProblem;
use plan_report::put_units;
use shelf_io::{Failed, Sink, put_all};
use word_table::{Pass, Words};

/// The act of a code, as reports print it.
fn act_of(problem: &GroundProblem, code: u16) -> &[u8]
    ensures { result.now ≡ act_text problem.now code }
{
    match code {
        GIVE_UP => b"give-up",
        AT_GOAL => b"goal",
        _ => match problem.actions().get(code as usize) {
            None => b"",
            Some(action) => action.name.as_slice(),
        },
    }
}

/// Puts micro-units behind the other bytes, as units.
fn push_units(value: u64, out: &mut ByteBuffer)
    requires { length out.old.bytes + 24 ≤ out.old.room }
    ensures bytes { out.new.bytes ≡ out.old.bytes ++ units value }
    ensures room { out.new.room ≡ out.old.room }
    ensures longer { length out.new.bytes ≤ length out.old.bytes + 24 }
{
    let mut digits = [0; 24];
    let count = put_units(value, &mut digits);
    out.extend(&digits[..count]);
}

/// Writes the line of an interval.
fn write_interval(problem: &GroundProblem, interval: Interval, out: &mut ByteBuffer)
    requires { IsReplyRoom problem.now out.old.room }
    ensures text { out.new.bytes ≡ interval_text problem.now interval }
    ensures room { out.new.room ≡ out.old.room }
{
    out.clear();
    out.extend(b"interval ");
    push_units(interval.lower, out);
    out.extend(b" ");
    push_units(interval.upper, out);
    out.extend(b" ");
    out.extend(act_of(problem, interval.code));
    out.push(b'\n');
}

/// Writes the line of an answer.
fn write_answer(problem: &GroundProblem, answer: Answer, out: &mut ByteBuffer)
    requires { IsReplyRoom problem.now out.old.room }
    ensures text { out.new.bytes ≡ answer_text problem.now answer }
    ensures room { out.new.room ≡ out.old.room }
{
    out.clear();
    match answer {
        Answer::NoQuery => out.extend(b"error syntax\n"),
        Answer::NoAtom => out.extend(b"error atom\n"),
        Answer::Unvisited => out.extend(b"unvisited\n"),
        Answer::Found(interval) => write_interval(problem, interval, out),
    }
}

/// Answers the line that was taken.
pub(crate) fn answer_line<O: Sink>(
    sink: &mut O,
    words: &Words<'_>,
    pass: &mut Pass,
    buffer: &mut QueryBuffer,
) -> Result<(), Failed>
    requires here { IsOf words.now pass.old }
    requires buffer { IsBufferOf words.now.problem buffer.old }
    ensures told { TellsReply words.now pass.old pass.new buffer.old.line
        (O.taken sink.old) (O.taken sink.new) result }
    ensures cause { HasCause (O.faults sink.old) (O.faults sink.new) result }
    ensures buffer { IsBufferOf words.now.problem buffer.new }
{
    let answer = answer_to(
        words,
        pass,
        buffer.line.bytes(),
        &mut buffer.text,
        &mut buffer.state,
    );
    write_answer(words.problem(), answer, &mut buffer.reply);
    put_all(sink, buffer.reply.bytes())
}
