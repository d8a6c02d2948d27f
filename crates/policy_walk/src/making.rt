//! The policy of a certificate.

ghost use Rattle.std.specs.Prelude.{◌≡◌, ◌∷◌, IfOk, OnOk, List, length};
ghost use Rattle.certificate.specs.Rows.{Row, shown};
ghost use Rattle.certificate.specs.Content.{IsRow};
ghost use Rattle.certificate_check.specs.Claims.{IsBalancedFor};
ghost use Rattle.decision_process.specs.Policies.{IsPolicy};
ghost use Rattle.ground_model.specs.Steps.{ground_process};
ghost use Rattle.policy_walk.specs.Policies.{act_in, policy_by};
ghost use Rattle.policy_walk.specs.Tables.{AreTablesOf, HasRows};

use crate::policy::Policy;
use crate::row_state::row_state;
use crate::tables::{Tables, action_taken, tables_of};
use certificate::{Certificate, RowView};
use ground_model::{GroundProblem, State};
use indexmap::IndexMap;
use std::alloc::{AllocError, Global};

/// Puts a row's act in the place of what its state had. The numbers of its atoms are written into `room`.
fn put_row(
    alloc: Global,
    problem: &GroundProblem,
    certificate: &Certificate,
    tables: &Tables,
    row: RowView<'_>,
    room: &mut Vec<u32>,
    acts: &mut IndexMap<State, Option<u16>>,
) -> Result<(), AllocError>
    requires tables { AreTablesOf problem.now certificate.now tables.now }
    requires row { IsRow (length certificate.now.atoms) (length certificate.now.acts) (shown row) }
    ensures { (rows : List Row) → HasRows problem.now certificate.now rows acts.old.entries
        → let more = shown row.entry ∷ rows
        in OnOk result (HasRows problem.now certificate.now more acts.new.entries) }
{
    let state = row_state(alloc, problem, &tables.atoms, row.atoms, room)?;
    let action = action_taken(&tables.acts, row.act);
    let Ok(_) = acts.insert(state, action) else {
        return Err(AllocError);
    };
    Ok(())
}

/// The policy of a certificate that is balanced for the problem: in each state the act of its row. It is
/// refused for want of memory alone.
pub fn policy_of(
    alloc: Global,
    problem: &GroundProblem,
    certificate: &Certificate,
) -> Result<Policy, AllocError>
    requires { IsBalancedFor problem.now certificate.now }
    ensures acts { IfOk result (λ policy. policy_by policy ≡ act_in problem.now certificate.now) }
    ensures is_policy { IfOk result
        (λ policy. IsPolicy (ground_process problem.now) (policy_by policy)) }
{
    let tables = tables_of(alloc, problem, certificate)?;
    let rows = certificate.rows();
    let mut room = Vec::new(alloc);
    let mut acts = IndexMap::with_capacity(alloc, rows.len())?;
    // from the last row on, so that the first of a state stays, as a certificate is read
    let mut place = rows.len();
    while place > 0 {
        place -= 1;
        let row = rows.row(place);
        put_row(
            alloc,
            problem,
            certificate,
            &tables,
            row,
            &mut room,
            &mut acts,
        )?;
    }
    Ok(Policy { acts })
}
