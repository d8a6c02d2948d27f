//! Room for the test of a row.

use applicable_actions::OpenCodes;
use ground_model::State;

/// Room for a test, which is made once for many rows.
#[derive(Drop)]
pub struct Scratch {
    /// A state of the problem's length.
    pub next: State,
    /// Room for the codes of its actions.
    pub codes: OpenCodes,
}
