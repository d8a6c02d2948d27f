//! What may be given as a value.

ghost use Rattle.std.specs.Prelude.{◌≡◌};
ghost use Rattle.plan_request.specs.reasons.Values.{fits, kind_of, states_kind, whole_kind};

use crate::ends::ends_named;
use crate::lower::lower_named;
use crate::numbers::{amount, whole};
use crate::progress::progress_named;

/// What may be given to an option, or as a positional word.
#[derive(Clone, Copy, Debug, PartialEq, Eq)]
pub(super) enum ValueKind {
    /// Any plain word.
    Name,
    /// An amount from the one to the other, in micro-units.
    Amount(u64, u64),
    /// A whole number from the one to the other.
    Whole(u64, u64),
    /// A name of where trials end.
    Ends,
    /// A name of what is told of the cost from below.
    Lower,
    /// A name of how rounds are told.
    Progress,
}

/// What may be given to `--states` of this command.
#[tactic(auto, unfolding(crate::specs::reasons::Values::states_kind))]
fn states_kind(command: &str) -> ValueKind
    ensures { result ≡ states_kind command.now }
{
    if "draw" == command {
        return ValueKind::Whole(1, 10_000);
    }
    ValueKind::Whole(65, 262_144)
}

/// What may be given under this name, where it is a whole number with the same range under every command.
#[tactic(auto, unfolding(crate::specs::reasons::Values::whole_kind))]
fn whole_kind(name: &str) -> Option<ValueKind>
    ensures { result ≡ whole_kind name.now }
{
    if "rounds" == name {
        return Some(ValueKind::Whole(0, 100_000));
    }
    if "trials" == name {
        return Some(ValueKind::Whole(0, 4_096));
    }
    if "depth" == name {
        return Some(ValueKind::Whole(1, 10_000));
    }
    if "tau" == name {
        return Some(ValueKind::Whole(1, 1_000));
    }
    if "workers" == name {
        return Some(ValueKind::Whole(1, 16));
    }
    if "sweep-states" == name {
        return Some(ValueKind::Whole(64, 262_143));
    }
    if "walks" == name {
        return Some(ValueKind::Whole(1, 100));
    }
    if "steps" == name {
        return Some(ValueKind::Whole(1, 10_000));
    }
    if "seed" == name {
        return Some(ValueKind::Whole(0, u64::MAX));
    }
    if "SEED" == name {
        return Some(ValueKind::Whole(0, u64::MAX));
    }
    if "N" == name {
        return Some(ValueKind::Whole(2, 1_000));
    }
    None
}

/// What may be given under this name to the command.
#[tactic(auto, unfolding(crate::specs::reasons::Values::kind_of))]
pub(super) fn kind_of(command: &str, name: &str) -> ValueKind
    ensures { result ≡ kind_of command.now name.now }
{
    if "states" == name {
        return states_kind(command);
    }
    if "penalty" == name {
        return ValueKind::Amount(1, 100_000_000_000_000);
    }
    if "step-cost" == name {
        return ValueKind::Amount(0, 1_000_000_000_000);
    }
    if "gap" == name {
        return ValueKind::Amount(0, 100_000_000_000_000);
    }
    if "ends" == name {
        return ValueKind::Ends;
    }
    if "lower" == name {
        return ValueKind::Lower;
    }
    if "progress" == name {
        return ValueKind::Progress;
    }
    match whole_kind(name) {
        Some(kind) => kind,
        None => ValueKind::Name,
    }
}

impl ValueKind {
    /// Whether this may be given.
    #[tactic(auto, unfolding(crate::specs::reasons::Values::fits))]
    pub(super) fn fits(self, text: &str) -> bool
        ensures { result ≡ fits self text.now }
    {
        match self {
            ValueKind::Name => true,
            ValueKind::Amount(least, most) => amount(text, least, most).is_some(),
            ValueKind::Whole(least, most) => whole(text, least, most).is_some(),
            ValueKind::Ends => ends_named(text).is_some(),
            ValueKind::Lower => lower_named(text).is_some(),
            ValueKind::Progress => progress_named(text).is_some(),
        }
    }
}
