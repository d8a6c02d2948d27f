//! What a trial reads of a start or of a choice, and what a backup answers.

ghost use Rattle.std.specs.Prelude.{◌≡◌};
ghost use Rattle.brtdp_trial.specs.Meaning.{is_new, spread, width, IsInterval};

/// The code by which a backup answers that giving up is best.
pub const GIVE_UP: u16 = 65_535;

const _: () = prove!(GIVE_UP == 65_535);

/// The code by which a backup answers that the state is a goal.
pub const AT_GOAL: u16 = 65_534;

const _: () = prove!(AT_GOAL == 65_534);

/// One start, or one choice of the action that a backup answered.
#[derive(Clone, Copy, Debug, PartialEq, Eq)]
pub struct Step {
    /// Its probability, times the denominator of all.
    pub weight: u64,
    /// The id of the state that it leads to, if that has one.
    pub id: Option<u32>,
    /// The lower number of that state as it was read, in micro-units.
    pub lower: u64,
    /// The upper number of that state as it was read, in micro-units.
    pub upper: u64,
}

/// What a backup answers.
#[derive(Clone, Copy, Debug, PartialEq, Eq)]
pub struct Backed {
    /// The code of the action that is best by the lower numbers; `GIVE_UP` where that is none.
    pub code: u16,
    /// The denominator of its choices.
    pub den: u64,
    /// How many choices it has.
    pub count: u32,
}

impl Step {
    /// A step that stands for none.
    pub(crate) const NONE: Step = Step {
        weight: 0,
        id: None,
        lower: 0,
        upper: 0,
    };

    /// The width of the interval, in micro-units.
    pub(crate) fn width(&self) -> u64
        requires { IsInterval self.now }
        ensures { result ≡ width self.now }
    {
        self.upper - self.lower
    }

    /// Whether the state that it leads to is new: nothing has raised its lower number from 0 yet.
    pub(crate) fn is_new(&self) -> bool
        ensures { result ≡ is_new self.now }
    {
        self.lower == 0 && 0 < self.upper
    }

    /// Weight times width: by this a step is drawn.
    pub(crate) fn spread(&self) -> u128
        requires { IsInterval self.now }
        ensures { result ≡ spread self.now }
    {
        u128::from(self.weight) * u128::from(self.width())
    }
}
