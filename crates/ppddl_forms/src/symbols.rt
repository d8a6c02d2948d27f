//! Words of forms that are no names.

/// Types stand behind it.
pub const DASH: &[u8] = b"-";

/// Both terms name one object; also, a function has a value.
pub const EQUAL: &[u8] = b"=";

/// A comparison of fluents, which is not accepted.
pub const LESS: &[u8] = b"<";

/// A comparison of fluents, which is not accepted.
pub const AT_MOST: &[u8] = b"<=";

/// A comparison of fluents, which is not accepted.
pub const GREATER: &[u8] = b">";

/// A comparison of fluents, which is not accepted.
pub const AT_LEAST: &[u8] = b">=";

/// The type above all others.
pub const OBJECT: &[u8] = b"object";
