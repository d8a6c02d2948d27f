//! The order of atoms and rows.

ghost use Rattle.std.specs.Prelude.{◌≡◌, option_map};
ghost use Rattle.std.specs.Option.{option_copied};
ghost use Rattle.std.specs.Ordering.{nat_cmp};
ghost use Rattle.plain_list.specs.Texts.{compare_texts, rises};
ghost use Rattle.certificate.specs.Content.{compare_rows};
ghost use Rattle.certificate.specs.Rows.{shown};
ghost use Rattle.certificate.specs.Counted.{follows};
ghost use Rattle.certificate.specs.Reading.{compare_named_rows};

use crate::{NamedRow, RowView, Text};

/// Whether each atom is below the next, bytewise.
pub(super) fn atoms_rise(atoms: &[Text]) -> bool
    ensures { result ≡ rises compare_texts atoms.now }
{
    atoms.is_sorted_by(|atom, next| atom < next)
}

/// Whether each number is below the next.
pub(super) fn numbers_rise(numbers: &[u32]) -> bool
    ensures { result ≡ rises nat_cmp numbers.now }
{
    numbers.is_sorted_by(|number, next| number < next)
}

/// Whether an entry of a table may stand behind the one before, if there is one.
pub(super) fn entry_follows(before: Option<&Text>, entry: &[u8]) -> bool
    ensures { result ≡ follows compare_texts (option_copied before.entry) entry.now }
{
    match before {
        Some(text) => text.as_slice() < entry,
        None => true,
    }
}

/// Whether a row of version 1 may stand behind the row before, if there is one.
///
/// Rows are compared atom by atom; a proper prefix is smaller.
pub(super) fn named_row_follows(before: Option<&NamedRow>, row: &NamedRow) -> bool
    ensures { result ≡ follows compare_named_rows (option_copied before.entry) row.now }
{
    match before {
        Some(before) => before.atoms.as_slice() < row.atoms.as_slice(),
        None => true,
    }
}

/// Whether a row may stand behind the row before, if there is one.
///
/// Rows are compared number by number; a proper prefix is smaller.
pub(super) fn row_follows(before: Option<RowView<'_>>, row: RowView<'_>) -> bool
    ensures { result ≡ follows compare_rows (option_map shown before.entry) (shown row.entry) }
{
    match before {
        Some(before) => before.atoms < row.atoms,
        None => true,
    }
}
