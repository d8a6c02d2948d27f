//! Intervals of states that are asked for.

ghost use Rattle.std.specs.Prelude.{◌≡◌, ◌≤◌, length};
ghost use Rattle.bound_core.specs.Core.{width};
ghost use Rattle.word_table.specs.Seen.{IsOf};
ghost use Rattle.policy_server.specs.declared.limits.TheConstants.{MOST_LINE};
ghost use Rattle.policy_server.specs.Queries.{query_of};
ghost use Rattle.policy_server.specs.Parts.{IsTextRoom, TellsState, TellsAnswer};

use crate::answer::Answer;
use crate::byte_buffer::ByteBuffer;
use crate::reading::{Asked, read_query};
use bound_words::interval;
use ground_model::State;
use state_interner::find;
use word_table::{Pass, Words, load_count};

/// The interval of a state, if it is found.
fn look_up(words: &Words<'_>, pass: &mut Pass, state: &State) -> Answer
    requires here { IsOf words.now pass.old }
    requires state { length state.now ≡ width words.now.problem }
    ensures { TellsState words.now pass.old pass.new state.now result }
{
    let Some(id) = find(words, pass, state) else {
        return Answer::Unvisited;
    };
    // A look at the table tells that ids of one state are one id, so that what was seen of the state is what was
    // noted of this id.
    load_count(words, pass);
    let found = interval(words, pass, id);
    Answer::Found(found)
}

/// The answer to a line.
pub(crate) fn answer_to(
    words: &Words<'_>,
    pass: &mut Pass,
    line: &[u8],
    text: &mut ByteBuffer,
    state: &mut State,
) -> Answer
    requires here { IsOf words.now pass.old }
    requires short { length line.now ≤ MOST_LINE }
    requires room { IsTextRoom text.old }
    requires state { length state.old ≡ width words.now.problem }
    ensures told { let q = query_of words.now.problem line.now
        in TellsAnswer words.now pass.old pass.new q result }
    ensures room { IsTextRoom text.new }
    ensures state { length state.new ≡ width words.now.problem }
{
    match read_query(words.problem(), line, text, state) {
        Asked::NoQuery => Answer::NoQuery,
        Asked::NoAtom => Answer::NoAtom,
        Asked::State => look_up(words, pass, state),
    }
}
