//! Where the transitions of an id stand.

ghost use Rattle.bellman_backup.specs.Places.{near_of, IsPlace};

use kept_transitions::{Kept, KeptRow};
use std::alloc::Global;
use std::sync::Arc;

/// Kept transitions, and the row of an id among them.
#[derive(Drop)]
pub(crate) struct Place<'a> {
    pub kept: &'a Kept,
    pub row: KeptRow,
}

/// Where the transitions of an id stand: among the shared ones, if those have them, and else among the own ones.
pub(crate) fn place_of<'a>(near: &'a Option<Arc<Kept, Global>>, own: &'a Kept, id: u32) -> Place<'a>
    ensures { IsPlace (near_of near.now) own.now id result.kept.now result.row }
{
    if let Some(shared) = near {
        let row = shared.row(id);
        if row.is_kept() {
            return Place { kept: shared, row };
        }
    }
    Place {
        kept: own,
        row: own.row(id),
    }
}
