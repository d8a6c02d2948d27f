//! What a request asks of a solver.

ghost use Rattle.std.specs.Prelude.{◌≡◌};
ghost use Rattle.plan_request.specs.Laws.{AreSizes};
ghost use Rattle.plan_search.specs.Solving.{solver_effort, solver_ends, solver_sizes, all_ids};

use plan_request::{Effort, Ends, Sizes};

/// Where the trials of a solver end.
fn solver_ends(ends: Ends) -> brtdp_trial::Ends
    ensures { result ≡ solver_ends ends }
{
    match ends {
        Ends::Depth => brtdp_trial::Ends::Depth,
        Ends::New => brtdp_trial::Ends::New,
    }
}

/// When a solver ends, and what its trials are.
pub(crate) fn solver_effort(effort: &Effort) -> trial_workers::Effort
    ensures { result ≡ solver_effort effort.now }
{
    trial_workers::Effort {
        gap: effort.gap,
        rounds: effort.rounds,
        trials: effort.trials,
        depth: effort.depth,
        tau: effort.tau,
        seed: effort.seed,
        ends: solver_ends(effort.ends),
    }
}

/// The sizes of a solver.
pub(crate) fn solver_sizes(sizes: &Sizes) -> crate::solver::Sizes
    ensures { result ≡ solver_sizes sizes.now }
{
    crate::solver::Sizes {
        workers: sizes.workers,
        states: sizes.states,
        sweep_states: sizes.sweep_states,
    }
}

/// How many ids the table has: one for each state, and one more for each worker.
pub(crate) fn all_ids(sizes: &Sizes) -> u32
    requires { AreSizes sizes.now }
    ensures { result ≡ all_ids sizes.now }
{
    sizes.states + sizes.workers
}
