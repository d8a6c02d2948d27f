//! What a certificate says of states.

ghost use Rattle.std.specs.Prelude.{◌≡◌};
ghost use Rattle.policy_graph.specs.Graph.{kind_of};

use crate::node::Node;
use crate::node_kind::NodeKind;
use crate::row_states::{action_codes, row_states};
use certificate::{Act, Certificate};
use ground_model::{GroundProblem, State};
use ground_step::is_goal;
use indexmap::IndexSet;
use std::alloc::{AllocError, Global};
use std::marker::Model;

/// What a certificate that is balanced for a ground problem says of states, by the hash of a state. Contracts
/// see the two.
#[derive(Drop)]
pub(crate) struct Claims<'a> {
    problem: &'a GroundProblem,
    certificate: &'a Certificate,
    /// The states of the rows, in their order.
    states: IndexSet<State>,
    /// The codes of the actions that the table of acts names.
    actions: Vec<Option<u16>>,
}

impl<'a> Model for Claims<'a> {
    ghost use Rattle.std.specs.Coded.{codes};
    ghost use Rattle.ground_model.specs.contracts.condition.GroundCondition as of_conditions;
    ghost use Rattle.policy_graph.specs.Claims.{Told, HasRowStates};

    ghost Value = { Told };

    ghost coded = { Prim.hlevel (codes, of_conditions.the_row.coded) };

    ghost view = { λ r. record { problem = r.problem.now; certificate = r.certificate.now } };

    ghost invariant = { λ r. HasRowStates r.problem.now r.certificate.now r.states.keys r.actions.items };
}

/// Bounds on the value of a state, and what the policy does there; None gives up.
#[derive(Clone, Copy, Drop)]
pub(crate) struct Claim {
    pub lower: u64,
    pub upper: u64,
    pub act: Option<u16>,
}

/// Whether a state is a goal; else what the policy does there.
fn kind_of(at_goal: bool, act: Option<u16>) -> NodeKind
    ensures { result ≡ kind_of at_goal act }
{
    if at_goal {
        return NodeKind::Goal;
    }
    match act {
        None => NodeKind::GivesUp,
        Some(code) => NodeKind::Acts(code),
    }
}

impl<'a> Claims<'a> {
    ghost use Rattle.std.specs.Prelude.{◌≡◌, IfOk, length};
    ghost use Rattle.certificate.specs.Content.{IsAct};
    ghost use Rattle.certificate_check.specs.Claims.{act_of, taken, IsBalancedFor};
    ghost use Rattle.decision_process.specs.Readings.{action_of};
    ghost use Rattle.policy_graph.specs.Claims.{told_by, claim_in, told_in, action_at};
    ghost use Rattle.policy_graph.specs.Graph.{node_of};

    /// The claims of a certificate. It is refused for want of memory alone.
    pub(crate) fn new(
        alloc: Global,
        problem: &'a GroundProblem,
        certificate: &'a Certificate,
    ) -> Result<Self, AllocError>
        requires { IsBalancedFor problem.now certificate.now }
        ensures { IfOk result (λ claims. claims ≡ told_by problem.now certificate.now) }
    {
        let states = row_states(alloc, problem, certificate)?;
        let actions = action_codes(alloc, problem, certificate.acts())?;
        Ok(Claims {
            problem,
            certificate,
            states,
            actions,
        })
    }

    /// The problem.
    pub(crate) fn problem(&self) -> &'a GroundProblem
        ensures { result.now ≡ self.now.problem }
    {
        self.problem
    }

    /// The code of the action that a row takes, if it takes one.
    fn action(&self, act: Act) -> Option<u16>
        requires { IsAct (length self.now.certificate.acts) act }
        ensures { result ≡ action_of (taken (act_of self.now.problem self.now.certificate act)) }
    {
        match act {
            Act::GiveUp | Act::Goal => None,
            Act::Do(place) => self.actions[place as usize],
        }
    }

    /// What the row of a state says, if there is one.
    fn row_claim(&self, state: &State) -> Option<Claim>
        ensures { result ≡ claim_in self.now.problem self.now.certificate state.now }
    {
        let place = self.states.get_index_of(state)?;
        let row = self.certificate.rows().row(place);
        Some(Claim {
            lower: row.lower,
            upper: row.upper,
            act: self.action(row.act),
        })
    }

    /// What the certificate says of a state that is no goal, and what it does there.
    fn claim(&self, state: &State) -> Claim
        ensures { result ≡ told_in self.now.problem self.now.certificate state.now }
    {
        self.row_claim(state).unwrap_or(Claim {
            lower: 0,
            upper: self.problem.penalty(),
            act: None,
        })
    }

    /// The code of the action that the policy takes in a state; None at a goal, and where it gives up.
    pub(crate) fn action_in(&self, state: &State) -> Option<u16>
        ensures { result ≡ action_at self.now.problem self.now.certificate state.now }
    {
        if is_goal(self.problem, state) {
            return None;
        }
        self.claim(state).act
    }

    /// The node of a state.
    pub(crate) fn node(&self, state: State) -> Node
        ensures { result ≡ node_of self.now.problem self.now.certificate state }
    {
        let at_goal = is_goal(self.problem, &state);
        let claim = self.claim(&state);
        Node {
            state,
            lower: claim.lower,
            upper: if at_goal { 0 } else { claim.upper },
            kind: kind_of(at_goal, claim.act),
        }
    }
}
