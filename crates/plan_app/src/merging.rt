//! `merge`.

ghost use Rattle.std.specs.Prelude.{◌≡◌, ◌⊎◌, ◌+◌, ◌<◌, ◌≤◌, length, IfOk, IfErr};
ghost use Rattle.certificate.specs.Content.{text_of, most_bytes};
ghost use Rattle.certificate_check.specs.Claims.{IsBalancedFor};
ghost use Rattle.cert_merge.specs.Merged.{IsMergeOf, HasMoreStates};
ghost use Rattle.plan_request.specs.Asked.{to_merge};
ghost use Rattle.plan_request.specs.Laws.{IsMerging};
ghost use Rattle.plan_request.specs.Shown.{shown_merging};
ghost use Rattle.plan_request.specs.declared.stop.Stop.TheVariants.{NoMemory, Limit};
ghost use Rattle.plan_sources.specs.Endings.{MayEnd, IsFault, OnlyRead};
ghost use Rattle.plan_app.specs.Endings.{MayEndRequest, CallsFor, Leaves};
ghost use Rattle.plan_app.specs.Merging.{second_stop, IsPair, LacksOne};
ghost use Rattle.plan_app.specs.Merging.{IsMergeAnswer, IsAboveLimit};

use crate::judging::accepted_certificate;
use crate::pair::Pair;
use crate::solving::write;
use cert_merge::MergeRefusal;
use certificate::{Certificate, MOST_BYTES, MOST_COUNT, WriteRefusal};
use ground_model::GroundProblem;
use plain_list::Bytes;
use plan_report::merge_report;
use plan_request::{Merging, Report, Stop};
use plan_search::Answer;
use plan_sources::problem_of;
use shelf_io::Shelf;
use std::alloc::Global;

/// The number of the limit on the rows of a merged certificate.
const MERGED_ROWS: u8 = 41;

/// The number of the limit on the length of a certificate's text.
const CERTIFICATE_LENGTH: u8 = 33;

/// The report of the certificate that two of one task are merged to. It is written first, once and whole.
pub(crate) fn merge<S: Shelf>(
    alloc: Global,
    merging: &Merging<'_>,
    shelf: &mut S,
) -> Result<Report, Stop>
    requires { IsMerging (shown_merging merging.now) }
    ensures ends { MayEndRequest S.held S.read_faults S.write_faults shelf.old shelf.new
        (to_merge (shown_merging merging.now)) result }
    ensures calls { CallsFor S.held S.calls shelf.old shelf.new
        (to_merge (shown_merging merging.now)) }
    ensures shelf { Leaves S.held S.read_faults S.write_faults shelf.old shelf.new
        (to_merge (shown_merging merging.now)) }
{
    let problem = problem_of(alloc, &merging.sources, shelf)?;
    let pair = pair_of(alloc, &problem, merging, shelf)?;
    let answer = answer_of(alloc, &problem, pair)?;
    write(alloc, merging.into, answer, shelf)
}

/// What stops a run at the second certificate.
fn of_second(stop: Stop) -> Stop
    ensures { result ≡ second_stop stop }
{
    match stop {
        Stop::NotAccepted { code, row } => Stop::SecondNotAccepted { code, row },
        other => other,
    }
}

/// Both certificates, each balanced for the problem, or what stops the run. The second is read behind a first one
/// that is accepted.
fn pair_of<S: Shelf>(
    alloc: Global,
    problem: &GroundProblem,
    merging: &Merging<'_>,
    shelf: &mut S,
) -> Result<Pair, Stop>
    ensures ends { let m = shown_merging merging.now
        in MayEnd (IsFault S.read_faults shelf.old shelf.new
        (LacksOne problem.now (S.held shelf.old m.first) (S.held shelf.old m.second)))
        (IsPair problem.now (S.held shelf.old m.first) (S.held shelf.old m.second)) result }
    ensures first { IfOk result (λ p. IsBalancedFor problem.now p.first) }
    ensures second { IfOk result (λ p. IsBalancedFor problem.now p.second) }
    ensures calls { S.calls shelf.new ≤ S.calls shelf.old + 2 }
    ensures shelf { OnlyRead S.held S.read_faults S.write_faults shelf.old shelf.new }
{
    let first = accepted_certificate(alloc, problem, merging.first, shelf)?;
    match accepted_certificate(alloc, problem, merging.second, shelf) {
        Ok(second) => Ok(Pair { first, second }),
        Err(stop) => Err(of_second(stop)),
    }
}

/// The certificate that two are merged to, or the limit on its rows.
fn merged_of(alloc: Global, problem: &GroundProblem, pair: &Pair) -> Result<Certificate, Stop>
    requires first { IsBalancedFor problem.now pair.now.first }
    requires second { IsBalancedFor problem.now pair.now.second }
    ensures merged { IfOk result (IsMergeOf problem.now pair.now.first pair.now.second) }
    ensures few { IfOk result (λ _.
        ¬ HasMoreStates MOST_COUNT problem.now pair.now.first pair.now.second) }
    ensures stops { IfErr result (λ stop. (stop ≡ NoMemory)
        ⊎ IsAboveLimit problem.now pair.now.first pair.now.second stop) }
{
    match cert_merge::merge(alloc, problem, &pair.first, &pair.second) {
        Ok(merged) => Ok(merged),
        Err(MergeRefusal::Rows) => Err(Stop::Limit {
            code: MERGED_ROWS,
            most: MOST_COUNT as u64,
        }),
        Err(MergeRefusal::Memory) => Err(Stop::NoMemory),
    }
}

/// The text of a certificate of version 2, or the limit on its length.
fn text_of(alloc: Global, certificate: &Certificate) -> Result<Bytes, Stop>
    requires { certificate.now.version ≡ 2 }
    ensures text { IfOk result (λ text. text ≡ text_of certificate.now) }
    ensures short { IfOk result (λ text. length text ≤ most_bytes 2) }
    ensures stops { IfErr result (λ stop. (stop ≡ NoMemory)
        ⊎ ((stop ≡ Limit 33 268435456) × (most_bytes 2 < length (text_of certificate.now)))) }
{
    match certificate::write(alloc, certificate) {
        Ok(text) => Ok(text),
        Err(WriteRefusal::TooLong) => Err(Stop::Limit {
            code: CERTIFICATE_LENGTH,
            most: MOST_BYTES as u64,
        }),
        Err(WriteRefusal::Memory) => Err(Stop::NoMemory),
    }
}

/// What is written and put of the certificate that two are merged to.
fn answer_of(alloc: Global, problem: &GroundProblem, pair: Pair) -> Result<Answer, Stop>
    requires first { IsBalancedFor problem.now pair.first }
    requires second { IsBalancedFor problem.now pair.second }
    ensures answer { IfOk result (IsMergeAnswer problem.now pair.first pair.second) }
    ensures stops { IfErr result (λ stop. (stop ≡ NoMemory)
        ⊎ IsAboveLimit problem.now pair.first pair.second stop) }
{
    let merged = merged_of(alloc, problem, &pair)?;
    // The certificates that were read end here: the text takes their memory.
    drop(pair);
    let report = merge_report(alloc, &merged)?;
    let certificate = text_of(alloc, &merged)?;
    Ok(Answer {
        certificate,
        report,
        converged: true,
    })
}
