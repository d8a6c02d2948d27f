//! Words of sections, and the flags of fields.

/// The type of all functions.
pub const NUMBER: &[u8] = b"number";

/// The sense of a metric that is not accepted.
pub const MINIMIZE: &[u8] = b"minimize";

/// An action's parameters.
pub const PARAMETERS_FLAG: &[u8] = b":parameters";

/// An action's precondition.
pub const PRECONDITION_FLAG: &[u8] = b":precondition";

/// The types of a domain.
pub const TYPES_FLAG: &[u8] = b":types";

/// The constants of a domain.
pub const CONSTANTS_FLAG: &[u8] = b":constants";

/// The functions of a domain.
pub const FUNCTIONS_FLAG: &[u8] = b":functions";

/// The objects of a problem.
pub const OBJECTS_FLAG: &[u8] = b":objects";
