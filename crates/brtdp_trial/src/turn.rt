//! The turns of a trial.

/// One turn: a state that was backed up, and the choice that was drawn there.
#[derive(Clone, Copy, Debug, PartialEq, Eq)]
pub struct Turn {
    /// The id of the state.
    pub id: u32,
    /// The code that the backup answered.
    pub code: u16,
    /// The denominator that it answered.
    pub den: u64,
    /// The sum of weight times width over the choices.
    pub total: u128,
    /// What was drawn, if the trial did not end before.
    pub drawn: Option<Drawn>,
}

/// What was drawn of the choices of an action.
#[derive(Clone, Copy, Debug, PartialEq, Eq)]
pub struct Drawn {
    /// The draw's number modulo the sum over the choices.
    pub rest: u128,
    /// The place of the choice.
    pub index: u32,
    /// The id of the state that it leads to, if that has one.
    pub id: Option<u32>,
    /// Whether that state was new when the choice was read: nothing had raised its lower number from 0 yet.
    pub new: bool,
}
