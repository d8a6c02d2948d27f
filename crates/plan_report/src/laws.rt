//! What holds of reports.

ghost use Rattle.plan_report.specs.Laws.{ReportsAgree, StateTextIsShort};

/// The report of a search says of states no more than what its rows say of the starts.
pub fn report_laws()
    ensures { ReportsAgree }
{}

/// What tells of the state of a row has a greatest length.
pub fn account_laws()
    ensures { StateTextIsShort }
{}
