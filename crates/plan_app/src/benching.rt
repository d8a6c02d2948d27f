//! `bench`.

ghost use Rattle.std.specs.Prelude.{◌≡◌, ◌≤◌, ◌<◌, ◌++◌, IfOk};
ghost use Rattle.plan_sources.specs.Endings.{MayEnd};
ghost use Rattle.plan_app.specs.Endings.{AnswersBench};
ghost use Rattle.plan_app.specs.Measuring.{bench_effort, bench_sizes, bench_line};

use crate::solving::said;
use plain_list::Bytes;
use plan_report::line_problem;
use plan_request::{Effort, Ends, Report, Sizes, Sources, Stop};
use plan_search::measure;
use plan_sources::{problem_of_text, source_laws};
use shelf_io::Gate;
use std::alloc::{AllocError, Global};
use std::thread::Threads;

/// When the search ends that measures the program: at a gap of one unit, or after 20,000 rounds.
fn effort(seed: u64) -> Effort
    ensures { result ≡ bench_effort seed }
{
    Effort {
        gap: 1_000_000,
        rounds: 20_000,
        trials: 0,
        depth: 1_000,
        tau: 10,
        seed,
        ends: Ends::Depth,
    }
}

/// The sizes of that search.
fn sizes() -> Sizes
    ensures { result ≡ bench_sizes }
{
    Sizes {
        workers: 1,
        states: 65_536,
        sweep_states: 4_096,
    }
}

/// The report of the search that measures the program, on the line of so many places.
pub(crate) fn bench<R: Threads + Sync, G: Gate>(
    rt: &R,
    alloc: Global,
    places: u32,
    seed: u64,
    gate: &G,
) -> Result<Report, Stop>
    requires { (◌≤◌ 2 places) × (places ≤ 1000) }
    ensures { MayEnd ⊥ (AnswersBench places seed) result }
{
    source_laws();
    let sources = Sources {
        domain: "line",
        problem: None,
        penalty: None,
        step_cost: 0,
    };
    let text = line_problem(alloc, places, seed)?;
    let problem = problem_of_text(alloc, &sources, text)?;
    let measured = measure(rt, alloc, &problem, &effort(seed), &sizes(), gate)?;
    let report = with_line(alloc, places, seed, &measured.report)?;
    Ok(said(measured.converged, report))
}

/// The report behind the line that says what was measured.
fn with_line(alloc: Global, places: u32, seed: u64, report: &Bytes) -> Result<Bytes, AllocError>
    ensures { IfOk result (λ text. text ≡ bench_line places seed ++ report.now) }
{
    let line = format!(in alloc; "bench {places} {seed}\n")?;
    let mut text = Vec::from_slice(alloc, line.as_str().as_bytes())?;
    text.extend_from_slice(report.as_slice())?;
    Ok(Bytes::from_vec(text))
}
