//! What is wrong, in words.

ghost use Rattle.std.specs.Prelude.{◌≡◌};
ghost use Rattle.plan_request.specs.reasons.Sentences.{names_line, reason_of_certificate};
ghost use Rattle.plan_request.specs.reasons.Sentences.{hyphens, least_words};
ghost use Rattle.plan_request.specs.reasons.Sentences.{reason_of_limit, reason_of_text};

use ppddl_model::TextCode;

/// What is wrong with a text.
pub(super) fn text_sentence(code: TextCode) -> &'static str
    ensures { result.now ≡ reason_of_text code }
{
    match code {
        TextCode::BadByte => "a byte is not allowed outside comments",
        TextCode::Unbalanced => "a parenthesis has no partner",
        TextCode::TooDeep => "more than 100 parentheses are open",
        TextCode::Expected => "no planning text goes on like this",
        TextCode::UnknownName => "a name or variable is not declared before its use",
        TextCode::Arity => "there are too many or too few arguments",
        TextCode::TypeMismatch => "an argument is not of its parameter's type",
        TextCode::Probability =>
            "a probability is above 1, or the common denominator goes above 10^18",
        TextCode::SumAboveOne => "the probabilities go above 1 in sum",
        TextCode::Unsupported => "this form is outside the profile of PPDDL that is read",
        TextCode::Number => "this is not a number of the form and range that are wanted here",
        TextCode::NoDomain => "no domain is defined before",
        TextCode::NoProblem => "no problem is defined behind the domain",
        TextCode::Twice => "this is given a second time, or in another way than before",
        TextCode::DomainName => "the problem is of another domain",
        TextCode::TypeCycle => "a type is its own ancestor, or object is under another type",
        TextCode::CostNotPositive => "outside when and probabilistic this action may cost nothing",
        TextCode::NoPenalty => "neither --penalty nor :goal-reward gives the price of giving up",
    }
}

/// What is wrong with a certificate, by the number of it.
#[tactic(auto, unfolding(crate::specs::reasons::Sentences::reason_of_certificate))]
pub(super) fn certificate_sentence(code: u8) -> &'static str
    ensures { result.now ≡ reason_of_certificate code }
{
    match code {
        30 => "no certificate has such a line here",
        31 => "the line, or what stands in it, is out of order",
        32 => "a list has more or fewer lines here than its count says",
        33 => "there are more bytes than a certificate may have",
        34 =>
            "the lower value is above what giving up or an open action costs, or is not 0 at a goal",
        35 => "the upper value is below what the act costs, or is not 0 at a goal",
        36 => "the act is goal at no goal, another one at a goal, or an action that is not open",
        37 => "the interval is not that of the initial states",
        38 => "the penalty is not that of the task",
        39 => "an atom is none that may change",
        40 => "no row uses this line",
        _ => "it is not accepted",
    }
}

/// Whether the number of what is wrong with a certificate stands for a line of its text, and not for a row.
pub(super) fn names_line(code: u8) -> bool
    ensures { result ≡ names_line code }
{
    matches!(code, 30 | 31 | 32 | 40)
}

/// What the limit with this number counts.
#[tactic(auto, unfolding(crate::specs::reasons::Sentences::reason_of_limit))]
pub(super) fn limit_sentence(code: u8) -> &'static str
    ensures { result.now ≡ reason_of_limit code }
{
    match code {
        20 => "joint choices of one part of an effect",
        21 => "as the denominator of an action's effect or of :init",
        22 => "instances of actions to be tried",
        23 => "ground actions",
        24 => "changing ground atoms",
        25 => "initial states",
        26 => "objects and constants",
        27 => "micro-units of one choice with all its guarded costs",
        28 => "bytes in this text or in that under --problem",
        29 => "as the ground size",
        33 => "bytes of a certificate",
        41 => "states with a row in either certificate",
        _ => "of what is counted",
    }
}

/// The least amount of an option, which is 0 or a micro-unit, in units.
pub(super) fn least_words(least: u64) -> &'static str
    ensures { result.now ≡ least_words least }
{
    if least == 0 { "0" } else { "0.000001" }
}

/// What stands before the name of an option, and before that of a positional word.
pub(super) fn hyphens(name: &str) -> &'static str
    ensures { result.now ≡ hyphens name.now }
{
    if name == "N" || name == "SEED" {
        ""
    } else {
        "--"
    }
}
