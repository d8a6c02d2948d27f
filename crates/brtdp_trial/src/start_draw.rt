//! The draw of a start.

/// The draw of a start.
#[derive(Clone, Copy, Debug, PartialEq, Eq)]
pub struct StartDraw {
    /// The sum of weight times width over the starts.
    pub total: u128,
    /// What was drawn, if the sum is not 0.
    pub drawn: Option<StartDrawn>,
}

/// The start that was drawn.
#[derive(Clone, Copy, Debug, PartialEq, Eq)]
pub struct StartDrawn {
    /// The draw's number modulo the sum over the starts.
    pub rest: u128,
    /// The place of the start.
    pub index: u32,
    /// Its width as it was read, in micro-units.
    pub gap: u64,
}

impl StartDraw {
    /// The draw of no trial.
    pub(crate) const NONE: StartDraw = StartDraw {
        total: 0,
        drawn: None,
    };
}
