//! What the checker says of a certificate.

ghost use Rattle.std.specs.Prelude.{◌≡◌};
ghost use Rattle.certificate_check.specs.Codes.{number_of, row_of};

/// Whether a certificate is balanced for a ground problem, or the first condition that fails. Rows are
/// counted from 1; of one row the order is that of these variants from `UnknownAtom` to `Upper`.
#[derive(Clone, Copy, Drop, Debug, PartialEq, Eq)]
pub enum Verdict {
    /// It is balanced.
    Accepted,
    /// Its penalty is not that of the problem.
    Penalty,
    /// A row names an atom that the problem does not have.
    UnknownAtom {
        /// The row.
        row: u32,
    },
    /// A row's act ends at a state that is no goal, or does anything else at a goal, or is not open, or
    /// names no action of the problem.
    Act {
        /// The row.
        row: u32,
    },
    /// A row's lower value does not follow from those of the next states.
    Lower {
        /// The row.
        row: u32,
    },
    /// A row's upper value does not follow from those of the next states.
    Upper {
        /// The row.
        row: u32,
    },
    /// Its interval is not that of the initial states.
    Ends,
}

impl Verdict {
    /// The number of the condition that fails: 34 to 39. What is accepted has none.
    pub fn number(self) -> Option<u8>
        ensures { result ≡ number_of self }
    {
        match self {
            Verdict::Accepted => None,
            Verdict::Lower { .. } => Some(34),
            Verdict::Upper { .. } => Some(35),
            Verdict::Act { .. } => Some(36),
            Verdict::Ends => Some(37),
            Verdict::Penalty => Some(38),
            Verdict::UnknownAtom { .. } => Some(39),
        }
    }

    /// The row at fault, counted from 1; 0 where none is.
    pub fn row(self) -> u32
        ensures { result ≡ row_of self }
    {
        match self {
            Verdict::Lower { row }
            | Verdict::Upper { row }
            | Verdict::Act { row }
            | Verdict::UnknownAtom { row } => row,
            Verdict::Accepted | Verdict::Penalty | Verdict::Ends => 0,
        }
    }
}
