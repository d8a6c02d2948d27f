//! Words as they are read.

ghost use Rattle.std.specs.Prelude.{◌≡◌};
ghost use Rattle.plan_request.specs.Asked.{spelled_word};

/// A word as it is read: `--progress` is its option with the one value that it has.
#[tactic(auto, unfolding(crate::specs::Asked::spelled_word))]
pub fn spelled_word<'a>(word: &'a str) -> &'a str
    ensures { result.now ≡ spelled_word word.now }
{
    if "--progress" == word {
        return "--progress=lines";
    }
    word
}
