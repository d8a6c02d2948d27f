//! Buckets in which states were found before.

ghost use Rattle.std.specs.Prelude.{◌<◌, length};

use crate::hint::Hint;
use std::alloc::{AllocError, Global};

/// The bits of an entry that tell for which states it may be. The other 20 are its bucket, which is below 2^20 in
/// every table.
const KEY_BITS: u32 = 0xfff0_0000;

/// The bit that each entry has, and an empty place has not.
const TAKEN: u32 = 0x0010_0000;

/// How many places are looked at for a state.
pub(crate) const MOST_PLACES: u32 = 16;

/// Buckets in which states were found before, by a hash of their own (open addressing with linear probing). A hint
/// is no more than a place to look first: what the bucket holds is compared with the state each time. So a hint
/// may be wrong or missing, and the hints of one table may be used with another.
#[derive(Drop)]
pub struct Hints {
    entries: Vec<u32>,
    is_filled: bool,
    ghost some_places: { 0 < length entries.items },
}

impl Hints {
    /// Hints for the states of so many ids. All memory is taken here, and it is refused for want of memory alone.
    pub fn make(alloc: Global, ids: u32) -> Result<Self, AllocError> {
        let ids = ids as usize;
        let places = (ids + ids / 2).max(16).next_power_of_two();
        Ok(Hints {
            entries: vec![in alloc; 0u32; places]?,
            is_filled: false,
        })
    }

    /// Whether the hints were filled from a table.
    pub(crate) fn is_filled(&self) -> bool {
        self.is_filled
    }

    /// From now on the hints were filled from a table.
    pub(crate) fn set_filled(&mut self) {
        self.is_filled = true;
    }

    /// The bits of the entries for states with this hash that are not the bucket.
    fn key(hash: u64) -> u32 {
        (hash >> 32) as u32 & KEY_BITS | TAKEN
    }

    /// A place of the run of states with this hash.
    fn place(&self, hash: u64, turn: u32) -> usize
        ensures { result < length self.now.entries.items }
    {
        ((hash >> 32) + u64::from(turn)) as usize & (self.entries.len() - 1)
    }

    /// What a place of the run of states with this hash holds.
    pub(crate) fn hint(&self, hash: u64, turn: u32) -> Hint {
        let entry = self.entries[self.place(hash, turn)];
        if entry == 0 {
            return Hint::End;
        }
        if entry & KEY_BITS != Self::key(hash) {
            return Hint::Other;
        }
        Hint::Bucket(entry & !KEY_BITS)
    }

    /// The first empty place of the run of states with this hash, or its first place where none is empty.
    fn free_place(&self, hash: u64) -> usize
        ensures { result < length self.now.entries.items }
    {
        for turn in 0..MOST_PLACES {
            let place = self.place(hash, turn);
            if self.entries[place] == 0 {
                return place;
            }
        }
        self.place(hash, 0)
    }

    /// Notes the bucket in which a state with this hash was found.
    pub(crate) fn note(&mut self, hash: u64, bucket: u32) {
        let place = self.free_place(hash);
        self.entries[place] = Self::key(hash) | bucket & !KEY_BITS;
    }
}
