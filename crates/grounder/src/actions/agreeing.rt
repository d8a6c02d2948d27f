//! Rows that agree with the row before.

ghost use Rattle.std.specs.Prelude.{◌≡◌, ◌<◌, ◌||◌, length, nat_eq, not, All};
ghost use Rattle.grounder.specs.actions.Repeating.{agree_where, agrees_before};

use task_instances::Rows;

/// Whether two objects of a parameter are the same, or it is not named.
fn agree_at(is_named: bool, object: u32, other: u32) -> bool
    ensures { result ≡ (not is_named || nat_eq object other) }
{
    !is_named || object == other
}

/// Whether two rows have the same objects at each parameter that is named.
fn agree(named: &[bool], row: &[u32], other: &[u32]) -> bool
    requires row { length row.now ≡ length named.now }
    requires other { length other.now ≡ length named.now }
    ensures { result ≡ agree_where named.now row.now other.now }
{
    for (place, is_named) in named.iter().enumerate() {
        if !agree_at(*is_named, row[place], other[place]) {
            return false;
        }
    }
    true
}

/// Whether there is a row before that at a place, with the same objects at each parameter that is named.
pub(super) fn agrees_before(named: &[bool], rows: &Rows, place: usize) -> bool
    requires place { place < length rows.now.rows }
    requires wide { All (λ row. length row ≡ length named.now) rows.now.rows }
    ensures { result ≡ agrees_before named.now rows.now.rows place }
{
    place > 0 && agree(named, rows.row(place), rows.row(place - 1))
}
