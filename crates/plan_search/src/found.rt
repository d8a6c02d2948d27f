//! What a solver left, with its certificate.

ghost use Rattle.std.specs.Prelude.{◌≡◌, ◌↔◌, ◌≤◌, ◌+◌, IsTrue, length, IfOk, IfErr};
ghost use Rattle.certificate.specs.Content.{IsCertificate, text_of, most_bytes};
ghost use Rattle.certificate_check.specs.Claims.{ground_certificate};
ghost use Rattle.plan_report.specs.certificates.Certificates.{HasNameLists};
ghost use Rattle.plan_search.specs.solver.Solved.{IsSolved};
ghost use Rattle.plan_request.specs.Laws.{AreSizes};
ghost use Rattle.plan_report.specs.Solved.{solve_text};
ghost use Rattle.plan_search.specs.Solving.{IsFoundBy, IsUnwritten};
ghost use Rattle.plan_search.specs.Solving.{solver_effort, solver_sizes, told_of};

use crate::solver::Closing;
use crate::terms::all_ids;
use bound_core::Ends;
use certificate::{Certificate, MOST_BYTES, WriteRefusal, write};
use ground_model::GroundProblem;
use plain_list::Bytes;
use plan_report::{certificate_of, report_laws, solve_report};
use plan_request::{Effort, Sizes, Stop};
use std::alloc::{AllocError, Global};

/// The number of the limit on the bytes of a certificate.
const CERTIFICATE_LENGTH: u8 = 33;

/// What a solver left, with its certificate.
#[derive(Debug, Drop)]
pub(crate) struct Found {
    /// What the solver left.
    pub closing: Closing,
    /// The certificate of it.
    pub certificate: Certificate,
}

/// What a solver left, with its certificate. It is refused for want of memory alone.
pub(crate) fn found_of(
    alloc: Global,
    problem: &GroundProblem,
    effort: &Effort,
    sizes: &Sizes,
    closing: Closing,
) -> Result<Found, AllocError>
    requires names { HasNameLists problem.now }
    requires sizes { AreSizes sizes.now }
    requires solved { IsSolved problem.now
        (solver_sizes sizes.now) (solver_effort effort.now) closing }
    ensures found { IfOk result (IsFoundBy problem.now effort.now sizes.now) }
    ensures left { IfOk result (λ found. found.closing ≡ closing) }
{
    let certificate = certificate_of(alloc, problem, &closing.image)?;
    Ok(Found {
        closing,
        certificate,
    })
}

impl Found {
    /// Whether the interval is at most as wide as the gap.
    pub(crate) fn is_within(&self, gap: u64) -> bool
        ensures within { IsTrue result
            ↔ (self.now.certificate.upper ≤ self.now.certificate.lower + gap) }
        ensures valid { IsCertificate self.now.certificate }
    {
        let ends = Ends {
            lower: self.certificate.lower(),
            upper: self.certificate.upper(),
        };
        ends.are_within(gap)
    }

    /// The report.
    pub(crate) fn report(
        &self,
        alloc: Global,
        problem: &GroundProblem,
        effort: &Effort,
        sizes: &Sizes,
    ) -> Result<Bytes, AllocError>
        requires sizes { AreSizes sizes.now }
        requires found { IsFoundBy problem.now effort.now sizes.now self.now }
        ensures { let g = problem.now in
            let told = told_of g effort.now sizes.now self.now.closing in
            IfOk result (λ report. report
            ≡ solve_text g (ground_certificate g self.now.certificate).rows told) }
    {
        report_laws();
        solve_report(
            alloc,
            problem,
            &self.closing.image,
            all_ids(sizes),
            effort.gap,
            self.closing.rounds,
        )
    }

    /// The text of the certificate, or the limit that it is above.
    pub(crate) fn into_text(self, alloc: Global) -> Result<Bytes, Stop>
        requires { self.certificate.version ≡ 2 }
        ensures text { IfOk result (λ text. text ≡ text_of self.certificate) }
        ensures short { IfOk result (λ text. length text ≤ most_bytes 2) }
        ensures unwritten { IfErr result (IsUnwritten self.certificate) }
    {
        let Found {
            closing,
            certificate,
        } = self;
        // The states end here: the text takes their memory.
        drop(closing);
        match write(alloc, &certificate) {
            Ok(text) => Ok(text),
            Err(WriteRefusal::TooLong) => Err(Stop::Limit {
                code: CERTIFICATE_LENGTH,
                most: MOST_BYTES as u64,
            }),
            Err(WriteRefusal::Memory) => Err(Stop::NoMemory),
        }
    }
}
