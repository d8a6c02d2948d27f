//! What holds of every request.

ghost use Rattle.plan_request.specs.Laws.{RequestsAreInRange};

/// The numbers of a request are in their ranges.
pub fn request_laws()
    ensures { RequestsAreInRange }
{}
