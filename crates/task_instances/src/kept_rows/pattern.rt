//! Atoms by number, whose arguments are objects or stand in the row of a binding.

ghost use Rattle.std.specs.Prelude.{◌≡◌, ◌<◌, [], suc, length, All, IfOk, OnOk, IfSome};
ghost use Rattle.task_instances.specs.kept_rows.Patterns.{number_in, fits_in, row_under};
ghost use Rattle.task_instances.specs.kept_rows.Patterns.{IsLastPlace, IsSlot, HasSlots};

use ppddl_model::{Param, Term};
use std::alloc::{AllocError, Global};
use type_table::TypeTable;

/// An argument of an atom.
#[derive(Clone, Copy)]
pub(super) enum Slot {
    /// The object of this number.
    Number(u32),
    /// The object whose number stands at this place of a row.
    Place(usize),
}

/// An atom by number.
#[derive(Drop)]
pub(super) struct Pattern {
    pub(super) predicate: usize,
    pub(super) slots: Vec<Slot>,
}

/// The last place at which a variable stands among the parameters.
fn last_place(params: &[Param], variable: &[u8]) -> Option<usize>
    ensures { IfSome result (IsLastPlace params.now variable.now) }
{
    let mut place = params.len();
    while place > 0 {
        place -= 1;
        if params[place].name.as_slice() == variable {
            return Some(place);
        }
    }
    None
}

/// A term by number, if it is a parameter or an object that has a number.
fn slot_of(table: &TypeTable, params: &[Param], term: &Term) -> Option<Slot>
    ensures { IfSome result (IsSlot table.now params.now term.now) }
{
    match term {
        Term::Variable(name) => match last_place(params, name.as_slice()) {
            Some(place) => Some(Slot::Place(place)),
            None => None,
        },
        Term::Object(name) => match table.object_number(name.as_slice()) {
            Some(number) => Some(Slot::Number(number)),
            None => None,
        },
    }
}

/// Terms by number, if each of them can be.
pub(super) fn slots_of(
    alloc: Global,
    table: &TypeTable,
    params: &[Param],
    terms: &[Term],
) -> Result<Option<Vec<Slot>>, AllocError>
    ensures { IfOk result (λ s. IfSome s
        (λ slots. HasSlots table.now params.now terms.now slots.items)) }
{
    let mut slots = Vec::new(alloc);
    for term in terms {
        let Some(slot) = slot_of(table, params, term) else {
            return Ok(None);
        };
        slots.push(slot)?;
    }
    Ok(Some(slots))
}

/// The number of the object that an argument names in a row.
fn number_in(row: &[u32], slot: Slot) -> u32
    requires { fits_in (length row.now) slot }
    ensures { result ≡ number_in row.now slot }
{
    match slot {
        Slot::Number(number) => number,
        Slot::Place(place) => row[place],
    }
}

impl Pattern {
    /// Writes the row of the atom over a row of its length.
    fn write_over(&self, row: &[u32], into: &mut [usize])
        requires fit { All (fits_in (length row.now)) self.now.slots.items }
        requires long { length into.old ≡ suc (length self.now.slots.items) }
        ensures { into.new ≡ row_under self.now row.now }
    {
        into[0] = self.predicate;
        for (place, slot) in self.slots.as_slice().iter().enumerate() {
            into[place + 1] = number_in(row, *slot) as usize;
        }
    }

    /// Puts the row of the atom into a buffer that has nothing.
    fn write_anew(&self, row: &[u32], into: &mut Vec<usize>) -> Result<(), AllocError>
        requires fit { All (fits_in (length row.now)) self.now.slots.items }
        requires empty { into.old.items ≡ [] }
        ensures { OnOk result (into.new.items ≡ row_under self.now row.now) }
    {
        into.push(self.predicate)?;
        for slot in self.slots.as_slice() {
            into.push(number_in(row, *slot) as usize)?;
        }
        Ok(())
    }

    /// Writes the row of the atom in place of what stood there: most rows that stand there have its length.
    pub(super) fn write(&self, row: &[u32], into: &mut Vec<usize>) -> Result<(), AllocError>
        requires { All (fits_in (length row.now)) self.now.slots.items }
        ensures { OnOk result (into.new.items ≡ row_under self.now row.now) }
    {
        if into.len() == self.slots.len() + 1 {
            self.write_over(row, into.as_mut_slice());
            return Ok(());
        }
        into.clear();
        self.write_anew(row, into)
    }
}
