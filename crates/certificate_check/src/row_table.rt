//! The rows of a certificate by their states.

ghost use Rattle.std.specs.Prelude.{◌≡◌, ◌+◌, ◌*◌, ◌^◌, ◌<◌, length, OnOk};
ghost use Rattle.ground_model.specs.Packed.{words_for};
ghost use Rattle.certificate_check.specs.Buckets.{scaled, HasLinks};

use crate::ground_rows::GroundRows;
use crate::packing::{blank, copy_words, state_width};
use crate::row_check::Bounds;
use ground_model::State;
use ground_step::hash;
use std::alloc::{AllocError, Global};
use std::marker::Model;

/// A hash table from states to the rows of a certificate. The rows of a bucket are linked, each to the one
/// before it, so that neither a state nor a value is stored twice. Contracts see the problem and the
/// certificate.
#[derive(Drop)]
pub(crate) struct RowTable<'a> {
    rows: &'a GroundRows<'a>,
    /// The last row of each bucket, counted from 1; 0 where it has none.
    lasts: Vec<u32>,
    /// The row before each row in its bucket, counted in the same way.
    befores: Vec<u32>,
}

impl<'a> Model for RowTable<'a> {
    ghost use Rattle.std.specs.Prelude.{length};
    ghost use Rattle.std.specs.Coded.{codes};
    ghost use Rattle.ground_model.specs.contracts.condition.GroundCondition as of_conditions;
    ghost use Rattle.certificate_check.specs.GroundRows.{Claimed};
    ghost use Rattle.certificate_check.specs.Buckets.{HasLinks};

    ghost Value = { Claimed };

    ghost coded = { Prim.hlevel (codes, of_conditions.the_row.coded) };

    ghost view = { λ t. t.rows.now };

    ghost invariant = { λ t. HasLinks t.rows.now (length t.rows.now.certificate.rows) t.lasts.items t.befores.items };
}

/// The bucket of a state among so many: the upper half of its hash, scaled down (Lemire 2019, Fast Random
/// Integer Generation in an Interval).
fn bucket_of(state: &State, buckets: usize) -> usize
    requires some { 0 < buckets }
    requires few { buckets < 2 ^ 32 }
    ensures bucket { result ≡ scaled buckets state.now }
    ensures within { result < buckets }
{
    (((hash(state) >> 32) * buckets as u64) >> 32) as usize
}

/// Links the row in this place to those before it, if the problem has its atoms. Its state is written into
/// `state`.
fn link_row(
    rows: &GroundRows<'_>,
    place: usize,
    state: &mut State,
    lasts: &mut Vec<u32>,
    befores: &mut Vec<u32>,
) -> Result<(), AllocError>
    requires place { place < length rows.now.certificate.rows }
    requires state { length state.old ≡ words_for (length rows.now.problem.atoms) }
    requires links { HasLinks rows.now place lasts.old.items befores.old.items }
    ensures state { length state.new ≡ length state.old }
    ensures links { OnOk result (HasLinks rows.now (place + 1) lasts.new.items befores.new.items) }
{
    if !rows.knows(place) {
        befores.push(0)?;
        return Ok(());
    }
    copy_words(rows.state(place), state);
    let bucket = bucket_of(state, lasts.len());
    befores.push(lasts[bucket])?;
    lasts[bucket] = place as u32 + 1;
    Ok(())
}

impl<'a> RowTable<'a> {
    ghost use Rattle.std.specs.Prelude.{◌≡◌, IfOk};
    ghost use Rattle.certificate_check.specs.GroundRows.{bounds_in};
    ghost use Rattle.certificate_check.specs.Buckets.{IsRowOf};

    /// The table of these rows. It is refused for want of memory alone.
    pub(crate) fn new(alloc: Global, rows: &'a GroundRows<'a>) -> Result<Self, AllocError>
        ensures { IfOk result (λ table. table ≡ rows.now) }
    {
        let count = rows.certificate().rows().len();
        let mut state = blank(alloc, state_width(rows.problem()))?;
        let mut lasts = vec![in alloc; 0u32; count + 1]?;
        let mut befores = Vec::with_capacity(alloc, count)?;
        for place in 0..count {
            link_row(rows, place, &mut state, &mut lasts, &mut befores)?;
        }
        Ok(RowTable {
            rows,
            lasts,
            befores,
        })
    }

    /// The rows.
    pub(crate) fn rows(&self) -> &'a GroundRows<'a>
        ensures { result.now ≡ self.now }
    {
        self.rows
    }

    /// The place of a state's row, if it has one.
    fn place_of(&self, state: &State) -> Option<usize>
        ensures { IsRowOf self.now state.now result }
    {
        let mut number = self.lasts[bucket_of(state, self.lasts.len())];
        while number > 0 {
            let place = (number - 1) as usize;
            if self.rows.state(place) == state.words() {
                return Some(place);
            }
            number = self.befores[place];
        }
        None
    }

    /// The lower and the upper value of a state's row, if it has one.
    pub(crate) fn bounds(&self, state: &State) -> Option<Bounds>
        ensures { result ≡ bounds_in self.now state.now }
    {
        let rows = self.rows.certificate().rows();
        let place = self.place_of(state)?;
        let row = rows.row(place);
        Some(Bounds {
            lower: row.lower,
            upper: row.upper,
        })
    }
}
