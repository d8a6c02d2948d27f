//! The kinds of kept actions.

ghost use Rattle.std.specs.Prelude.{◌≡◌, ◌<◌, [], Some, length, IfOk, IfSome};
ghost use Rattle.std.specs.List.{slice_get};
ghost use Rattle.kept_transitions.specs.Kinds.{HasKind, HasMoreKinds};

use crate::kind::Kind;
use std::alloc::{AllocError, Global};
use std::marker::Model;

/// How many kinds of a bucket are looked at before another one is put.
const MOST_LOOKS: u32 = 16;

/// The number of buckets, as a power of two.
const BUCKET_BITS: u32 = 14;

/// What stands for the place of a kind where there is none.
const NOWHERE: u32 = u32::MAX;

/// The bucket of a kind. The multiplier is 2^64 over the golden ratio: its upper bits tell costs in even steps apart,
/// and codes.
fn bucket(code: u16, cost: u64) -> usize {
    let mixed = (cost ^ u64::from(code) << 32).wrapping_mul(0x9E37_79B9_7F4A_7C15);
    (mixed >> (64 - BUCKET_BITS)) as usize
}

/// Kinds in buckets, of each of which the last one is known. All memory is taken by `make`. Contracts see the kinds.
#[derive(Drop)]
pub(crate) struct Kinds {
    list: Vec<Kind>,
    latest: Vec<u32>,
}

impl Model for Kinds {
    ghost use Rattle.std.specs.Prelude.{List, length, vec_capacity};
    ghost use Rattle.kept_transitions.specs.declared.kind.Kind.{Kind};
    ghost use Rattle.kept_transitions.specs.Rows.{IsRoom};

    ghost Value = { List Kind };

    ghost view = { λ k. k.list.items };

    ghost invariant = { λ k. IsRoom (length k.list.items) (vec_capacity k.list) };
}

impl Kinds {
    /// No kinds, with room for so many. It is refused for want of memory alone.
    pub(crate) fn make(alloc: Global, room: u32) -> Result<Self, AllocError>
        ensures { IfOk result (λ kinds. kinds ≡ []) }
    {
        Ok(Kinds {
            list: Vec::with_capacity(alloc, room as usize)?,
            latest: vec![in alloc; NOWHERE; 1 << BUCKET_BITS]?,
        })
    }

    /// The kind in a place.
    pub(crate) fn kind(&self, place: u32) -> Kind
        requires { place < length self.now }
        ensures { slice_get self.now place ≡ Some result }
    {
        self.list[place as usize]
    }

    /// The place of a kind among the last ones of its bucket.
    fn find(&self, code: u16, cost: u64) -> Option<u32>
        ensures { IfSome result (λ place. HasKind self.now place code cost) }
    {
        let mut place = *self.latest.get(bucket(code, cost))?;
        for _ in 0..MOST_LOOKS {
            let kind = self.list.get(place as usize)?;
            if kind.code == code && kind.cost == cost {
                return Some(place);
            }
            place = kind.earlier;
        }
        None
    }

    /// The place of a kind, which is put behind the others if it is not found. None: there is no room for it, and
    /// nothing is changed.
    pub(crate) fn place_of(&mut self, code: u16, cost: u64) -> Option<u32>
        ensures grown { HasMoreKinds self.old self.new }
        ensures place { IfSome result (λ place. HasKind self.new place code cost) }
    {
        if let Some(place) = self.find(code, cost) {
            return Some(place);
        }
        let index = bucket(code, cost);
        if index >= self.latest.len() || self.list.len() >= self.list.capacity() {
            return None;
        }
        let place = self.list.len() as u32;
        self.list.push_reserved(Kind {
            cost,
            earlier: self.latest[index],
            code,
        });
        self.latest[index] = place;
        Some(place)
    }
}
