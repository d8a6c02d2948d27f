//! How large a search is.

/// The most states that a table is made for, beside one for each worker.
pub const MOST_STATES: u32 = 262_144;

const _: () = prove!(MOST_STATES == 262_144);

/// How large a search is.
#[derive(Clone, Copy, Debug, PartialEq, Eq)]
pub struct Sizes {
    /// The workers, 1 to 16.
    pub workers: u32,
    /// The states that the table has room for in any case, at most 262,144.
    pub states: u32,
    /// The most states near the starts that each round backs up: at least 64, and fewer than `states`.
    pub sweep_states: u32,
}
