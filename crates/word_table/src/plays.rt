//! What each kind of step tells its own pass.

use crate::view::View;
use atomic_table::{Join, Play, Split};

/// A load of a lower number.
pub(crate) struct LowerLoad;

impl Play<(), View> for LowerLoad {
    ghost use Rattle.word_table.specs.Plays.{lower_loaded};

    ghost then = { lower_loaded };
}

/// A load of an upper word.
pub(crate) struct UpperLoad;

impl Play<(), View> for UpperLoad {
    ghost use Rattle.word_table.specs.Plays.{upper_loaded};

    ghost then = { upper_loaded };
}

/// The maximum with a lower number.
pub(crate) struct LowerMax;

impl Play<(), View> for LowerMax {
    ghost use Rattle.word_table.specs.Plays.{lower_raised};

    ghost then = { lower_raised };
}

/// The minimum with an upper word.
pub(crate) struct UpperMin;

impl Play<(), View> for UpperMin {
    ghost use Rattle.word_table.specs.Plays.{upper_sunk};

    ghost then = { upper_sunk };
}

/// A load of the count of ids given out.
pub(crate) struct CountLoad;

impl Play<(), View> for CountLoad {
    ghost use Rattle.word_table.specs.Plays.{counted};

    ghost then = { counted };
}

/// An exchange of the count.
pub(crate) struct Claims;

impl Play<(), View> for Claims {
    ghost use Rattle.word_table.specs.Plays.{claimed};

    ghost then = { claimed };
}

/// A store of a word of the spare's state.
pub(crate) struct Writes;

impl Play<(), View> for Writes {
    ghost use Rattle.word_table.specs.Plays.{wrote};

    ghost then = { wrote };
}

/// A load of a bucket.
pub(crate) struct BucketLoad;

impl Play<(), View> for BucketLoad {
    ghost use Rattle.word_table.specs.Plays.{looked};

    ghost then = { looked };
}

/// An exchange of a bucket.
pub(crate) struct Publishes;

impl Play<(), View> for Publishes {
    ghost use Rattle.word_table.specs.Plays.{put};

    ghost then = { put };
}

/// A load of a word of a state.
pub(crate) struct StateLoad;

impl Play<(), View> for StateLoad {
    ghost use Rattle.word_table.specs.Plays.{read};

    ghost then = { read };
}

/// The new view has no right.
pub(crate) struct NoRight;

impl Split<View> for NoRight {
    ghost use Rattle.word_table.specs.view.Steps.{without_rights};

    ghost left = { λ v. v };

    ghost right = { without_rights };
}

/// The new view has one right.
pub(crate) struct OneRight;

impl Split<View> for OneRight {
    ghost use Rattle.word_table.specs.view.Steps.{less_one_right, with_one_right};

    ghost left = { less_one_right };

    ghost right = { with_one_right };
}

/// One view that knows what either knew.
pub(crate) struct Unites;

impl Join<View> for Unites {
    ghost use Rattle.word_table.specs.view.Steps.{united, spent};

    ghost both = { united };

    ghost spent = { spent };
}

/// The rights of the second view go to the first.
pub(crate) struct TakesRights;

impl Join<View> for TakesRights {
    ghost use Rattle.word_table.specs.view.Steps.{richer, spent};

    ghost both = { richer };

    ghost spent = { spent };
}
