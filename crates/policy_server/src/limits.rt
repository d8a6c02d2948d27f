//! Limits of queries.

/// The most queries that one call answers.
pub const MOST_QUERIES: u32 = 100_000;

/// The most bytes of a query, without its line feed.
pub const MOST_LINE: usize = 65_536;

const _: () = prove!(MOST_QUERIES == 100_000);

const _: () = prove!(MOST_LINE == 65_536);
