//! How the means are read.

ghost use Rattle.std.specs.Prelude.{◌≡◌, IsTrue};
ghost use Rattle.ground_model.specs.Invariant.{IsGroundProblem};
ghost use Rattle.word_table.specs.view.Views.{knows, has_state};
ghost use Rattle.word_table.specs.rule.Told.{HasOneEach};
ghost use Rattle.word_table.specs.Seen.{IsOf};
ghost use Rattle.bellman_backup.specs.Backups.{Keeps};
ghost use Rattle.bellman_backup.specs.means.Means.{HasStarts, AreMeans};
ghost use Rattle.bellman_backup.specs.means.Sums.{IsReadOf, AreSums};

use crate::means::Means;
use crate::means::bounds::Bounds;
use crate::means::sums::Sums;
use bound_words::interval;
use ground_model::Start;
use ground_step::is_goal;
use word_table::{Pass, Words, load_count};

/// The bounds of a start. At a goal nothing is to be paid.
fn read_start(words: &Words<'_>, pass: &mut Pass, start: &Start, id: u32) -> Bounds
    requires here { IsOf words.now pass.old }
    requires known { knows pass.old.view id }
    requires has { IsTrue (has_state pass.old.view id start.now.state) }
    ensures keeps { Keeps words.now pass.old pass.new }
    ensures read { let g = words.now.problem
        in IsReadOf g pass.old.view pass.new.view id start.now.state result }
{
    let found = interval(words, pass, id);
    let upper = if is_goal(words.problem(), &start.state) {
        0
    } else {
        found.upper
    };
    Bounds {
        lower: found.lower,
        upper,
    }
}

/// The sums over the starts.
fn add_up(words: &Words<'_>, pass: &mut Pass, starts: &[Start]) -> Sums
    requires here { IsOf words.now pass.old }
    requires one { HasOneEach pass.old.view }
    requires all { starts.now ≡ words.now.problem.starts }
    requires valid { IsGroundProblem words.now.problem }
    requires known { HasStarts words.now.problem pass.old.view }
    ensures keeps { Keeps words.now pass.old pass.new }
    ensures sums { AreSums words.now.problem pass.old.view pass.new.view starts.now result }
{
    let mut sums = Sums::ZERO;
    for (id, start) in starts.iter().enumerate() {
        let bounds = read_start(words, pass, start, id as u32);
        sums = sums.with(start.weight, bounds);
    }
    sums
}

/// The means over the starts of the bounds that the pass finds, each read once. The starts have their places as
/// ids. It takes no memory.
pub fn read_means(words: &Words<'_>, pass: &mut Pass) -> Means
    requires here { IsOf words.now pass.old }
    requires starts { HasStarts words.now.problem pass.old.view }
    ensures keeps { Keeps words.now pass.old pass.new }
    ensures means { AreMeans words.now.problem pass.old.view pass.new.view result }
    ensures problem { IsGroundProblem words.now.problem }
{
    let problem = words.problem();
    let den = u128::from(problem.start_den());
    // A look at the table tells that ids of one state are one id, so that what was seen of a start is what was
    // noted of its id.
    load_count(words, pass);
    let sums = add_up(words, pass, problem.starts());
    Means {
        lower: (sums.lower / den) as u64,
        upper: sums.upper.div_ceil(den) as u64,
    }
}
