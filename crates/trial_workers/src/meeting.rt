//! Meetings of workers, before and behind a round.

ghost use Rattle.std.specs.Prelude.{◌≡◌, ◌<◌, length, All};
ghost use Rattle.word_table.specs.view.Laws.{HasMore};
ghost use Rattle.word_table.specs.Seen.{IsOf};
ghost use Rattle.trial_workers.specs.Parts.{IsDivision};
ghost use Rattle.trial_workers.specs.Workers.{Stays};
ghost use Rattle.trial_workers.specs.Rounds.{CanMeet, IsPrepared, AllPrepared, HaveMet};

use crate::parts::Division;
use crate::worker::Worker;
use word_table::{Pass, Words, meet, split};

/// A pass learns what another has seen, which stays as it is.
fn hear(words: &Words<'_>, pass: &mut Pass, other: &mut Pass)
    requires here { IsOf words.now pass.old × IsOf words.now other.old }
    ensures stays { Stays words.now pass.old pass.new }
    ensures heard { HasMore other.old.view pass.new.view }
    ensures other { other.new ≡ other.old }
{
    meet(words, pass, other);
}

/// A pass without rights that has seen the same.
fn copy_of(words: &Words<'_>, pass: &mut Pass) -> Pass
    requires can { CanMeet words.now pass.old }
    ensures here { IsOf words.now result }
    ensures noted { HasMore pass.old.view result.view }
    ensures same { pass.new ≡ pass.old }
{
    split(words, pass, 0)
}

/// A worker gets its part, and learns the news.
fn prepare_one(
    words: &Words<'_>,
    division: &Division,
    index: u32,
    worker: &mut Worker<'_>,
    news: &mut Pass,
)
    requires here { IsOf words.now worker.old.pass × IsOf words.now news.old }
    requires division { IsDivision division.now }
    requires index { index < division.now.workers }
    ensures worker { let v = news.old.view
        in IsPrepared words.now division.now v index worker.old worker.new }
    ensures news { news.new ≡ news.old }
{
    division.give(index, worker);
    hear(words, &mut worker.pass, news);
}

/// Each worker learns what the first one has seen, and gets its part.
pub(crate) fn prepare(words: &Words<'_>, division: &Division, workers: &mut [Worker<'_>])
    requires can { All (λ w. CanMeet words.now w.pass) workers.old }
    requires division { IsDivision division.now }
    requires count { length workers.old ≡ division.now.workers }
    ensures { AllPrepared words.now division.now workers.old workers.new }
{
    let mut news = copy_of(words, &mut workers[0].pass);
    for index in 0..division.workers {
        prepare_one(
            words,
            division,
            index,
            &mut workers[index as usize],
            &mut news,
        );
    }
}

/// The first worker learns what each has seen.
pub(crate) fn meet_all(words: &Words<'_>, workers: &mut [Worker<'_>])
    requires some { 0 < length workers.old }
    requires can { All (λ w. CanMeet words.now w.pass) workers.old }
    ensures { HaveMet words.now workers.old workers.new }
{
    let mut news = copy_of(words, &mut workers[0].pass);
    for index in 0..workers.len() {
        hear(words, &mut news, &mut workers[index].pass);
    }
    hear(words, &mut workers[0].pass, &mut news);
}
