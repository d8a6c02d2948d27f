//! The names of a request.

ghost use Rattle.std.specs.Prelude.{◌≡◌};
ghost use Rattle.plan_request.specs.Shown.{shown_request, shown_sources};
ghost use Rattle.plan_request.specs.reasons.Reasons.{limited_name, names_of, names_with, text_name};
ghost use Rattle.plan_request.specs.reasons.Shown.{shown_names};

use crate::request::Request;
use crate::sources::Sources;

/// The names under which a request reads texts and certificates, and writes one; empty where it has none.
#[derive(Clone, Copy, Debug)]
pub(super) struct Names<'a> {
    /// The text of the domain.
    pub domain: &'a str,
    /// The text of the problem, which may be the same.
    pub problem: &'a str,
    /// The certificate that is read.
    pub certificate: &'a str,
    /// The second certificate that is read.
    pub second: &'a str,
    /// The certificate that is written.
    pub written: &'a str,
}

impl<'a> Names<'a> {
    /// The names of a request on this task.
    fn with(
        sources: &Sources<'a>,
        certificate: &'a str,
        second: &'a str,
        written: &'a str,
    ) -> Names<'a>
        ensures { shown_names result
            ≡ names_with (shown_sources sources.now) certificate.now second.now written.now }
    {
        let problem = match sources.problem {
            Some(problem) => problem,
            None => sources.domain,
        };
        Names {
            domain: sources.domain,
            problem,
            certificate,
            second,
            written,
        }
    }

    /// The names of a request.
    pub(super) fn of(request: &Request<'a>) -> Names<'a>
        ensures { shown_names result ≡ names_of (shown_request request.now) }
    {
        match request {
            Request::Solve(solving) | Request::Serve(solving) => {
                Names::with(&solving.sources, "", "", solving.certificate)
            }
            Request::Check {
                sources,
                certificate,
            } => Names::with(sources, certificate, "", ""),
            Request::Ground(sources) => Names::with(sources, "", "", ""),
            Request::Bench { .. } => Names {
                domain: "",
                problem: "",
                certificate: "",
                second: "",
                written: "",
            },
            Request::Merge(merging) => Names::with(
                &merging.sources,
                merging.first,
                merging.second,
                merging.into,
            ),
            Request::Walk(walking) => Names::with(&walking.sources, walking.certificate, "", ""),
            Request::Draw(drawing) => Names::with(&drawing.sources, drawing.certificate, "", ""),
        }
    }

    /// The name of text 1 or 2.
    pub(super) fn text(&self, file: u8) -> &'a str
        ensures { result.now ≡ text_name (shown_names self.now) file }
    {
        if file == 2 { self.problem } else { self.domain }
    }

    /// The name to which the limit with this number is put down.
    pub(super) fn limited(&self, code: u8) -> &'a str
        ensures { result.now ≡ limited_name (shown_names self.now) code }
    {
        if code == 33 || code == 41 {
            self.written
        } else {
            self.domain
        }
    }
}
