//! What a table hands out at its end.

ghost use Rattle.std.specs.Prelude.{◌≡◌, ◌<◌, ◌+◌, All, length, IfOk, IfErr};
ghost use Rattle.std.specs.Mem.Slots.{slots_items, slots_len, IsFull};
ghost use Rattle.word_table.specs.layout.Places.{size, IsLayout};
ghost use Rattle.word_table.specs.rule.Words.{word, state_in};
ghost use Rattle.word_table.specs.Seen.{IsOf};
ghost use Rattle.word_table.specs.Closed.{AreClosed, AreMarked, IsWide, IsRoom, IsImage, row_in, rows_in, image_in};

use crate::layout::Layout;
use crate::making::first_word;
use crate::pass::Pass;
use crate::room::Room;
use crate::words::Words;
use atomic_table::Closed;
use bound_core::{Image, ImageRow, List};
use fixed_round::UpperWord;
use ground_model::{GroundProblem, State};
use std::alloc::{AllocError, Global};

/// A row for each id, whose numbers and words are 0.
fn blank_rows(alloc: Global, layout: Layout) -> Result<Vec<ImageRow>, AllocError>
    ensures count { IfOk result (λ rows. length rows.items ≡ layout.ids) }
    ensures wide { IfOk result (λ rows. All (IsWide layout) rows.items) }
{
    let mut rows = Vec::with_capacity(alloc, layout.ids as usize)?;
    for _ in 0..layout.ids {
        let words = vec![in alloc; 0u64; layout.width as usize]?;
        rows.push(ImageRow {
            state: State::from_words(List::from_vec(words)),
            lower: 0,
            upper: UpperWord::from_word(0),
        })?;
    }
    Ok(rows)
}

/// The memory for what a table hands out.
fn room(alloc: Global, layout: Layout) -> Result<Room, AllocError>
    ensures { IfOk result (λ room. IsRoom layout room) }
{
    Ok(Room {
        rows: blank_rows(alloc, layout)?,
        published: vec![in alloc; false; layout.ids as usize]?,
    })
}

/// A word of a table that is closed.
fn word(closed: &Closed<(), Global>, place: usize) -> u64
    requires { IsFull closed.now.words × (place < slots_len closed.now.words) }
    ensures { result ≡ word (slots_items closed.now.words) place }
{
    closed.word(place)
}

/// Writes the state of an id over another one.
fn read_state(closed: &Closed<(), Global>, layout: Layout, id: u32, state: &mut State)
    requires layout { IsLayout layout × (id < layout.ids) }
    requires full { IsFull closed.now.words × (slots_len closed.now.words ≡ size layout) }
    requires wide { length state.old ≡ layout.width }
    ensures { state.new ≡ state_in layout (slots_items closed.now.words) id }
{
    for place in 0..layout.width {
        state.set_word(place as usize, word(closed, layout.state_word(id, place)));
    }
}

/// Writes the row of an id over another one.
fn read_row(
    problem: &GroundProblem,
    closed: &Closed<(), Global>,
    layout: Layout,
    id: u32,
    row: &mut ImageRow,
)
    requires layout { IsLayout layout × (id < layout.ids) }
    requires full { IsFull closed.now.words × (slots_len closed.now.words ≡ size layout) }
    requires wide { IsWide layout row.old }
    ensures { row.new ≡ row_in problem.now layout (slots_items closed.now.words) id }
{
    read_state(closed, layout, id, &mut row.state);
    let first = first_word(problem, &row.state);
    let found = UpperWord::from_word(word(closed, layout.upper(id)));
    row.lower = word(closed, layout.lower(id));
    row.upper = if first.is_below(found) { first } else { found };
}

/// Which ids stand in a bucket.
fn mark_published(
    closed: &Closed<(), Global>,
    layout: Layout,
    mut published: Vec<bool>,
) -> Vec<bool>
    requires layout { IsLayout layout }
    requires full { IsFull closed.now.words × (slots_len closed.now.words ≡ size layout) }
    requires words { AreClosed layout (slots_items closed.now.words) }
    requires none { AreMarked layout (slots_items closed.now.words) 0 published.items }
    ensures { AreMarked layout (slots_items closed.now.words) layout.buckets result.items }
{
    for bucket in 0..layout.buckets {
        let held = word(closed, layout.bucket(bucket));
        if held != 0 {
            published[(held - 1) as usize] = true;
        }
    }
    published
}

/// The rows of the ids that are published, in rising order, over the first of these rows.
fn read_rows(
    problem: &GroundProblem,
    closed: &Closed<(), Global>,
    layout: Layout,
    published: &[bool],
    mut rows: Vec<ImageRow>,
) -> Vec<ImageRow>
    requires layout { IsLayout layout }
    requires full { IsFull closed.now.words × (slots_len closed.now.words ≡ size layout) }
    requires marks { AreMarked layout (slots_items closed.now.words) layout.buckets published.now }
    requires count { length rows.items ≡ layout.ids }
    requires wide { All (IsWide layout) rows.items }
    ensures { result.items ≡ rows_in problem.now layout (slots_items closed.now.words) layout.ids }
{
    let mut count = 0;
    for id in 0..layout.ids {
        if published[id as usize] {
            read_row(problem, closed, layout, id, &mut rows[count]);
            count += 1;
        }
    }
    rows.truncate(count);
    rows
}

/// What a table that is closed holds.
fn read_image(
    problem: &GroundProblem,
    closed: &Closed<(), Global>,
    layout: Layout,
    room: Room,
) -> Image
    requires layout { IsLayout layout }
    requires full { IsFull closed.now.words × (slots_len closed.now.words ≡ size layout) }
    requires words { AreClosed layout (slots_items closed.now.words) }
    requires room { IsRoom layout room }
    ensures { result ≡ image_in problem.now layout (slots_items closed.now.words) }
{
    let Room { rows, published } = room;
    let published = mark_published(closed, layout, published);
    let rows = read_rows(problem, closed, layout, published.as_slice(), rows);
    Image {
        rows: List::from_vec(rows),
        given_out: word(closed, 0) as u32,
    }
}

impl<'p> Words<'p> {
    /// What the table holds at its end. Err is want of memory, and hands both back as they were.
    pub fn close(self, alloc: Global, pass: Pass) -> Result<Image, (Words<'p>, Pass)>
        requires { IsOf self pass }
        ensures ok { IfOk result (λ image. IsImage self.entry pass.view image) }
        ensures err { IfErr result (λ back. (back.0 ≡ self.entry) × (back.1 ≡ pass)) }
    {
        let Ok(room) = room(alloc, self.layout) else {
            return Err((self, pass));
        };
        let Words {
            problem,
            layout,
            lower_words: _,
            upper_words: _,
            rights: _,
            table,
        } = self;
        let Pass { seat, spare: _ } = pass;
        let closed = table.close_with(seat);
        let image = read_image(problem, &closed, layout, room);
        closed.free();
        Ok(image)
    }
}
