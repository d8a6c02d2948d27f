//! Where each word of the shared table of ids stands.

mod laws;

ghost use Rattle.std.specs.Prelude.{◌≡◌, ◌<◌, ◌≤◌, ◌+◌, ◌*◌};
ghost use Rattle.bound_core.specs.declared.codes.TheConstants.{MOST_IDS};
ghost use Rattle.word_table.specs.layout.Places.{IsLayout, bucket_at, state_at, lower_at, upper_at, size};

use bound_core::MOST_IDS;
pub use laws::layout_laws;

/// The most words of a state: those of 1,024 atoms.
pub const MOST_WIDTH: u32 = 16;

const _: () = prove!(MOST_WIDTH == 16);

/// How many ids, buckets and words of a state a table has. `specs/Places.antt` says where each stands.
#[derive(Clone, Copy, Debug, Drop, PartialEq, Eq)]
pub struct Layout {
    /// The number of ids.
    pub ids: u32,
    /// The number of buckets: the least power of two that is at least twice the number of ids.
    pub buckets: u32,
    /// The number of words of a state.
    pub width: u32,
}

impl Layout {
    /// The layout of so many ids, with so many words for each state.
    pub fn new(ids: u32, width: u32) -> Self
        requires ids { (0 < ids) × (ids ≤ MOST_IDS) }
        requires width { (0 < width) × (width ≤ MOST_WIDTH) }
        ensures layout { IsLayout result }
        ensures value { (result.ids ≡ ids) × (result.width ≡ width) }
    {
        Layout {
            ids,
            buckets: (2 * ids).next_power_of_two(),
            width,
        }
    }

    /// Where the bucket stands.
    pub fn bucket(self, bucket: u32) -> usize
        ensures { result ≡ bucket_at bucket }
    {
        bucket as usize + 1
    }

    /// Where the words of states begin.
    fn states(self) -> usize
        ensures { result ≡ self.buckets + 1 }
    {
        self.buckets as usize + 1
    }

    /// Where a word of the state of an id stands.
    pub fn state_word(self, id: u32, place: u32) -> usize
        requires layout { IsLayout self }
        requires here { (id < self.ids) × (place < self.width) }
        ensures { result ≡ state_at self id place }
    {
        self.states() + (id as usize * self.width as usize + place as usize)
    }

    /// Where the lower number of an id stands.
    pub fn lower(self, id: u32) -> usize
        requires layout { IsLayout self }
        requires here { id < self.ids }
        ensures { result ≡ lower_at self id }
    {
        self.states() + self.ids as usize * self.width as usize + id as usize
    }

    /// Where the upper word of an id stands.
    pub fn upper(self, id: u32) -> usize
        requires layout { IsLayout self }
        requires here { id < self.ids }
        ensures { result ≡ upper_at self id }
    {
        self.lower(id) + self.ids as usize
    }

    /// The number of words of the table.
    pub fn size(self) -> usize
        requires { IsLayout self }
        ensures { result ≡ size self }
    {
        self.states() + self.ids as usize * self.width as usize + 2 * self.ids as usize
    }
}
