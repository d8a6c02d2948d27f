//! The limits of certificates.

/// The greatest length of a certificate's text, in bytes: 256 MiB.
pub const MOST_BYTES: usize = 268_435_456;

const _: () = prove!(MOST_BYTES == 268_435_456);

/// The greatest length of a text of version 1, in bytes: 64 MiB.
pub const MOST_BYTES_1: usize = 67_108_864;

const _: () = prove!(MOST_BYTES_1 == 67_108_864);

/// The greatest penalty, value and end of an interval, in micro-units: 10^14, which is a hundred
/// million units.
pub const MOST_UNITS: u64 = 100_000_000_000_000;

const _: () = prove!(MOST_UNITS == 100_000_000_000_000);

/// The greatest number of rows, and of the entries of each table of version 2.
pub const MOST_COUNT: u64 = 1_000_000;

const _: () = prove!(MOST_COUNT == 1_000_000);
