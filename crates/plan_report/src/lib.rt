//! What the program prints, byte for byte, and the certificate of what is known when a search has
//! ended.
#![tactic(auto)]

mod accepted;
mod accounts;
mod atoms;
mod certificates;
mod ending;
mod grounded;
mod laws;
mod line;
mod pieces;
mod solved;
mod under;
mod units;

pub use accepted::{check_report, merge_report};
pub use accounts::{MOST_STATE_BYTES, account};
pub use certificates::certificate_of;
pub use ending::Ending;
pub use grounded::ground_report;
pub use laws::{account_laws, report_laws};
pub use line::line_problem;
pub use solved::solve_report;
pub use under::with_under;
pub use units::put_units;
