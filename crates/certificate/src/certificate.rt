//! What a certificate is: a penalty, an interval, two tables and rows.

ghost use Rattle.std.specs.Prelude.{◌≡◌};

use crate::{List, Rows, Text};
use std::marker::Model;

/// A certificate. Contracts see what it says, and that this has the form, the range and the order of
/// its version: an `IsCertificate`.
///
/// Values are micro-units of at most `MOST_UNITS`, and the penalty is at least 1. Rows name atoms and
/// acts by their places in the two tables, from 0. A table has exactly the names that some row uses,
/// each a list of lower-case names as `(at l1)`; it rises strictly, bytewise. The numbers of a row
/// rise strictly, and so do the rows by their lists of numbers. There are at most `MOST_COUNT` rows,
/// and entries of each table of version 2.
#[derive(Debug, Drop)]
pub struct Certificate {
    version: u32,
    penalty: u64,
    lower: u64,
    upper: u64,
    atoms: List<Text>,
    acts: List<Text>,
    rows: Rows,
}

impl Model for Certificate {
    ghost use Rattle.certificate.specs.Content.{Content, IsCertificate};

    ghost Value = { Content };

    ghost view = { λ c. record {
      version = c.version;
      penalty = c.penalty;
      lower = c.lower;
      upper = c.upper;
      atoms = c.atoms;
      acts = c.acts;
      rows = c.rows;
    } };

    ghost invariant = { λ c. IsCertificate (record {
      version = c.version;
      penalty = c.penalty;
      lower = c.lower;
      upper = c.upper;
      atoms = c.atoms;
      acts = c.acts;
      rows = c.rows;
    }) };
}

impl Certificate {
    ghost use Rattle.std.specs.Prelude.{◌≡◌};
    ghost use Rattle.certificate.specs.Content.{IsCertificate, content_of};

    /// The certificate of this version that says this.
    pub fn new(
        version: u32,
        penalty: u64,
        lower: u64,
        upper: u64,
        atoms: List<Text>,
        acts: List<Text>,
        rows: Rows,
    ) -> Self
        requires { IsCertificate (content_of version penalty lower upper atoms acts rows) }
        ensures { result ≡ content_of version penalty lower upper atoms acts rows }
    {
        Certificate {
            version,
            penalty,
            lower,
            upper,
            atoms,
            acts,
            rows,
        }
    }

    /// The version of its text: 1 or 2.
    pub fn version(&self) -> u32
        ensures value { result ≡ self.now.version }
        ensures valid { IsCertificate self.now }
    {
        self.version
    }

    /// The price of giving up, in micro-units.
    pub fn penalty(&self) -> u64
        ensures value { result ≡ self.now.penalty }
        ensures valid { IsCertificate self.now }
    {
        self.penalty
    }

    /// The lower end of the interval over the starts, in micro-units.
    pub fn lower(&self) -> u64
        ensures value { result ≡ self.now.lower }
        ensures valid { IsCertificate self.now }
    {
        self.lower
    }

    /// The upper end of the interval over the starts, in micro-units.
    pub fn upper(&self) -> u64
        ensures value { result ≡ self.now.upper }
        ensures valid { IsCertificate self.now }
    {
        self.upper
    }

    /// The atoms that rows name by number, as `(at l1)`.
    pub fn atoms(&self) -> &[Text]
        ensures value { result.now ≡ self.now.atoms }
        ensures valid { IsCertificate self.now }
    {
        self.atoms.as_slice()
    }

    /// The names of ground actions that rows name by number, as `(move-car l1 l2)`.
    pub fn acts(&self) -> &[Text]
        ensures value { result.now ≡ self.now.acts }
        ensures valid { IsCertificate self.now }
    {
        self.acts.as_slice()
    }

    /// The rows, in order.
    pub fn rows(&self) -> &Rows
        ensures value { result.now ≡ self.now.rows }
        ensures valid { IsCertificate self.now }
    {
        &self.rows
    }
}
