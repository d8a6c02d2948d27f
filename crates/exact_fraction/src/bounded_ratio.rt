//! Ratios with bounded parts.

/// `num` over `den` as a text writes it, each of them `HUGE` where it is greater.
#[derive(Clone, Copy)]
pub(crate) struct BoundedRatio {
    pub(crate) num: u128,
    pub(crate) den: u128,
}
