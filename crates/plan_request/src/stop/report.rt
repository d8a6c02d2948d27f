//! What a run reports.

ghost use Rattle.std.specs.Prelude.{◌≡◌};
ghost use Rattle.plan_request.specs.stop.Stop.{report_status, report_text};

use crate::stop::status::{DONE, GAP_LEFT};
use plain_list::Bytes;

/// The report of a run that nothing stopped.
#[derive(Debug, Drop)]
pub enum Report {
    /// What was asked for is done.
    Done(Bytes),
    /// A search ended with a wider interval than was asked for.
    GapLeft(Bytes),
}

impl Report {
    /// The status of the program.
    pub fn status(&self) -> u8
        ensures { result ≡ report_status self.now }
    {
        match self {
            Report::Done(_) => DONE,
            Report::GapLeft(_) => GAP_LEFT,
        }
    }

    /// All that is put.
    pub fn text(&self) -> &[u8]
        ensures { result.now ≡ report_text self.now }
    {
        match self {
            Report::Done(text) | Report::GapLeft(text) => text.as_slice(),
        }
    }
}
