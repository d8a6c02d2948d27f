//! Rows that a certificate keeps.

ghost use Rattle.std.specs.Prelude.{◌≡◌, length};
ghost use Rattle.std.specs.Cmp.{on_equiv, on_per, on_po, on_total, partial_equiv_from_equiv};
ghost use Rattle.std.specs.Cmp.Lexicographic.{pointwise, nat_list_cmp_total, nat_list_eq_equiv};
ghost use Rattle.std.specs.Cmp.Lexicographic.{texts_po, texts_ties};
ghost use Rattle.std.specs.Prelude.{nat_eq, Some};
ghost use Rattle.std.proofs.Common.{refl};
ghost use Rattle.plan_report.specs.certificates.Kept.{IsShort, kept_of};
ghost use Rattle.plan_report.specs.certificates.RowsKept.{KeptRow, compare_kept};

use crate::certificates::state_order::compare_states;
use bound_core::ImageRow;
use fixed_round::UpperWord;
use ground_step::{TrueAtoms, true_atoms};
use std::cmp::Ordering;
use std::marker::Model;

/// A row that is kept, where it stands. Contracts see the numbers of the atoms that hold in its state, in place of the
/// state. Rows are ordered by these.
#[derive(Drop)]
pub(super) struct KeptRow<'p> {
    row: &'p ImageRow,
}

impl<'p> Model for KeptRow<'p> {
    ghost use Rattle.plan_report.specs.certificates.Kept.{IsShort, kept_of};
    ghost use Rattle.plan_report.specs.certificates.RowsKept.{KeptRow};

    ghost Value = { KeptRow };

    ghost view = { λ k. kept_of k.row.now };

    // the number of each atom fits
    ghost invariant = { λ k. IsShort k.row.now };
}

impl<'p> KeptRow<'p> {
    /// The row.
    pub fn new(row: &'p ImageRow) -> Self
        requires { IsShort row.now }
        ensures { result ≡ kept_of row.now }
    {
        KeptRow { row }
    }

    /// The atoms that hold, in rising order.
    pub fn atoms(&self) -> TrueAtoms<'_>
        ensures { result ≡ self.now.atoms }
    {
        true_atoms(&self.row.state)
    }

    /// How many atoms hold.
    pub fn atom_count(&self) -> usize
        ensures { result ≡ length self.now.atoms }
    {
        let mut count = 0;
        for word in self.row.state.words() {
            count += word.count_ones() as usize;
        }
        count
    }

    /// The lower number, in micro-units.
    pub fn lower(&self) -> u64
        ensures { result ≡ self.now.lower }
    {
        self.row.lower
    }

    /// The upper word.
    pub fn upper(&self) -> UpperWord
        ensures { result ≡ self.now.upper }
    {
        self.row.upper
    }
}

impl<'p> PartialEq for KeptRow<'p> {
    ghost eq = { λ x y. pointwise nat_eq x.atoms y.atoms };

    ghost laws = { on_per (λ (r : KeptRow). r.atoms) (partial_equiv_from_equiv nat_list_eq_equiv) };

    fn eq(&self, other: &Self) -> bool {
        self.cmp(other).is_eq()
    }
}

impl<'p> Eq for KeptRow<'p> {
    ghost laws = { on_equiv (λ (r : KeptRow). r.atoms) nat_list_eq_equiv };
}

impl<'p> PartialOrd for KeptRow<'p> {
    ghost partial_cmp = { λ x y. Some (compare_kept x y) };

    ghost laws = { on_po (λ (r : KeptRow). r.atoms) texts_po };

    fn partial_cmp(&self, other: &Self) -> Option<Ordering> {
        Some(self.cmp(other))
    }
}

impl<'p> Ord for KeptRow<'p> {
    ghost cmp = { compare_kept };

    ghost total = { on_total (λ (r : KeptRow). r.atoms) nat_list_cmp_total };

    ghost matches_partial_cmp = { λ x y. refl };

    ghost matches_eq = { λ x y. texts_ties x.atoms y.atoms };

    fn cmp(&self, other: &Self) -> Ordering {
        compare_states(&self.row.state, &other.row.state)
    }
}
