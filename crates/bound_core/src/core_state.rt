//! Core states as finite data.

ghost use Rattle.std.specs.Prelude.{◌≡◌, Some, IsTrue};
ghost use Rattle.std.specs.List.{slice_get};
ghost use Rattle.bound_core.specs.Shown.{is_published};
ghost use Rattle.bound_core.specs.declared.id_row.IdRow.{IdRow};

use crate::id_row::IdRow;
use crate::worker::Worker;
use fixed_round::UpperWord;
use plain_list::List;

/// The ids that are given out and the workers, each at the place of its number.
#[derive(Clone, Debug, Drop, PartialEq)]
pub struct CoreState {
    /// One row for each id.
    pub ids: List<IdRow>,
    /// One worker for each number.
    pub workers: List<Worker>,
}

impl CoreState {
    /// The lower number of a published id, in micro-units.
    pub fn lower_of(&self, id: u32) -> u64
        requires { IsTrue (is_published self.now id) }
        ensures { (row : IdRow) → slice_get self.now.ids id ≡ Some row → result ≡ row.lower }
    {
        self.ids.as_slice()[id as usize].lower
    }

    /// The upper word of a published id.
    pub fn upper_of(&self, id: u32) -> UpperWord
        requires { IsTrue (is_published self.now id) }
        ensures { (row : IdRow) → slice_get self.now.ids id ≡ Some row → result ≡ row.upper }
    {
        self.ids.as_slice()[id as usize].upper
    }
}
