//! A certificate beside a ground problem.

ghost use Rattle.std.specs.Prelude.{◌≡◌};
ghost use Rattle.certificate_check.specs.Claims.{doing};

use crate::numbers::{action_codes, atom_numbers};
use crate::packing::{PackedRows, pack_rows, piece, state_width};
use crate::row_check::Act;
use certificate::Certificate;
use ground_model::GroundProblem;
use std::alloc::{AllocError, Global};
use std::marker::Model;

/// A certificate whose tables are turned into numbers of a ground problem, and whose rows stand in one
/// arena as packed states. Contracts see the two.
#[derive(Drop)]
pub(crate) struct GroundRows<'c> {
    problem: &'c GroundProblem,
    certificate: &'c Certificate,
    /// How many words a state has.
    width: usize,
    words: Vec<u64>,
    known: Vec<bool>,
    /// The codes of the actions that the table of acts names.
    actions: Vec<Option<u16>>,
}

impl<'c> Model for GroundRows<'c> {
    ghost use Rattle.std.specs.Coded.{codes};
    ghost use Rattle.ground_model.specs.contracts.condition.GroundCondition as of_conditions;
    ghost use Rattle.certificate_check.specs.GroundRows.{Claimed, HasRows};

    ghost Value = { Claimed };

    ghost coded = { Prim.hlevel (codes, of_conditions.the_row.coded) };

    ghost view = { λ r. record { problem = r.problem.now; certificate = r.certificate.now } };

    ghost invariant = { λ r. HasRows r.problem.now r.certificate.now r.width r.words.items r.known.items r.actions.items };
}

/// Taking the action with this code, if there is one.
fn doing(code: Option<u16>) -> Option<Act>
    ensures { result ≡ doing code }
{
    let code = code?;
    Some(Act::Do(code))
}

impl<'c> GroundRows<'c> {
    ghost use Rattle.std.specs.Prelude.{◌≡◌, ◌<◌, length, Some, IfOk};
    ghost use Rattle.std.specs.List.{slice_get};
    ghost use Rattle.certificate.specs.Rows.{Row};
    ghost use Rattle.certificate.specs.Content.{IsAct};
    ghost use Rattle.certificate_check.specs.Claims.{knows, row_state, act_of};

    /// The rows of a certificate. It is refused for want of memory alone.
    pub(crate) fn new(
        alloc: Global,
        problem: &'c GroundProblem,
        certificate: &'c Certificate,
    ) -> Result<Self, AllocError>
        ensures problem { IfOk result (λ rows. rows.problem ≡ problem.now) }
        ensures certificate { IfOk result (λ rows. rows.certificate ≡ certificate.now) }
    {
        let width = state_width(problem);
        let numbers = atom_numbers(alloc, problem, certificate.atoms())?;
        let PackedRows { words, known } = pack_rows(
            alloc,
            numbers.as_slice(),
            width,
            certificate.rows(),
        )?;
        let actions = action_codes(alloc, problem, certificate.acts())?;
        Ok(GroundRows {
            problem,
            certificate,
            width,
            words,
            known,
            actions,
        })
    }

    /// The problem.
    pub(crate) fn problem(&self) -> &'c GroundProblem
        ensures { result.now ≡ self.now.problem }
    {
        self.problem
    }

    /// The certificate.
    pub(crate) fn certificate(&self) -> &'c Certificate
        ensures { result.now ≡ self.now.certificate }
    {
        self.certificate
    }

    /// Whether the problem has each atom of the row in this place.
    pub(crate) fn knows(&self, place: usize) -> bool
        requires { place < length self.now.certificate.rows }
        ensures { (r : Row) → slice_get self.now.certificate.rows place ≡ Some r
            → result ≡ knows self.now.problem self.now.certificate r }
    {
        self.known[place]
    }

    /// The words of the state of the row in this place.
    pub(crate) fn state(&self, place: usize) -> &[u64]
        requires { place < length self.now.certificate.rows }
        ensures { (r : Row) → slice_get self.now.certificate.rows place ≡ Some r
            → result.now ≡ row_state self.now.problem self.now.certificate r }
    {
        let from = place * self.width;
        piece(&self.words, from, self.width)
    }

    /// What an act of the certificate does; None where it names no action of the problem.
    pub(crate) fn act(&self, act: certificate::Act) -> Option<Act>
        requires { IsAct (length self.now.certificate.acts) act }
        ensures { result ≡ act_of self.now.problem self.now.certificate act }
    {
        match act {
            certificate::Act::GiveUp => Some(Act::GiveUp),
            certificate::Act::Goal => Some(Act::Goal),
            certificate::Act::Do(place) => doing(self.actions[place as usize]),
        }
    }
}
