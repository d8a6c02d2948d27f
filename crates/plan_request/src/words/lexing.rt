//! What one word is.

ghost use Rattle.std.specs.Prelude.{◌≡◌, option_map};
ghost use Rattle.clap.specs.Lexer.{strip_byte, name_and_value, long_of as long_of_text};
ghost use Rattle.plan_request.specs.words.Words.{is_plain as is_plain_text, word_of as word_of_text};
ghost use Rattle.plan_request.specs.words.Shown.{shown_word};

/// What a word is: a plain one, an option that waits for its value, an option with its value, or
/// none of these.
#[derive(Clone, Copy, Debug, PartialEq, Eq)]
pub(super) enum Word<'a> {
    Value,
    Opens(&'a str),
    Gives(&'a str, &'a str),
    Other,
}

/// Not empty, and not beginning with `-`.
pub(super) fn is_plain(word: &str) -> bool
    ensures { result ≡ is_plain_text word.now }
{
    match word.as_bytes() {
        [] => false,
        [first, ..] => *first != b'-',
    }
}

/// What the word is.
pub(super) fn word_of(word: &str) -> Word<'_>
    ensures { shown_word result ≡ word_of_text word.now }
{
    if is_plain(word) {
        return Word::Value;
    }
    match long_of(word) {
        None => Word::Other,
        Some((name, None)) => Word::Opens(name),
        Some((name, Some(value))) => {
            if is_plain(value) {
                Word::Gives(name, value)
            } else {
                Word::Other
            }
        }
    }
}

/// What follows a first hyphen.
fn strip_hyphen(word: &str) -> Option<&str>
    ensures { option_map (λ s. s.now) result ≡ strip_byte 45 word.now }
{
    word.strip_prefix('-')
}

/// What stands before the first `=`, and what stands after it if there is one.
fn split_value(text: &str) -> (&str, Option<&str>)
    ensures { (result.0.now, option_map (λ s. s.now) result.1) ≡ name_and_value text.now }
{
    match text.split_once('=') {
        Some((name, value)) => (name, Some(value)),
        None => (text, None),
    }
}

/// `--name` or `--name=value`, as the name and the value.
fn long_of(word: &str) -> Option<(&str, Option<&str>)>
    ensures { option_map (λ p. (p.0.now, option_map (λ s. s.now) p.1)) result
        ≡ long_of_text word.now }
{
    let rest = strip_hyphen(strip_hyphen(word)?)?;
    if rest.is_empty() {
        return None;
    }
    Some(split_value(rest))
}
