//! Two certificates of a coin as one.

use cert_merge::merge;
use certificate::{Certificate, read, write};
use certificate_check::{Verdict, check};
use ground_model::GroundProblem;
use sample_problems::coin;
use std::alloc::Global;
use std::process::Abort;
use std::test::Fail;

/// Of version 1: the lower value is that of a flip that lands heads at once, and nothing is known above.
static LOW: &[u8] = b"cert 1
penalty 10000000
interval 1000000 10000000
states 1
1000000 10000000 give-up :
end
";

/// Of version 2: an upper value with its act.
static HIGH: &[u8] = b"cert 2
penalty 10000000
interval 0 6000000
atoms 0
acts 1
(flip)
states 1
0 6000000 0 :
end
";

/// Both of these.
static BOTH: &[u8] = b"cert 2
penalty 10000000
interval 1000000 6000000
atoms 0
acts 1
(flip)
states 1
1000000 6000000 0 :
end
";

/// `LOW` in version 2: no row takes an action.
static LOW_TOO: &[u8] = b"cert 2
penalty 10000000
interval 1000000 10000000
atoms 0
acts 0
states 1
1000000 10000000 give-up :
end
";

/// No row.
static NOTHING: &[u8] = b"cert 1
penalty 10000000
interval 0 10000000
states 0
end
";

/// A row of the goal.
static GOAL: &[u8] = b"cert 1
penalty 10000000
interval 0 10000000
states 1
0 0 goal : (heads)
end
";

/// The same in version 2.
static GOAL_TOO: &[u8] = b"cert 2
penalty 10000000
interval 0 10000000
atoms 1
(heads)
acts 0
states 1
0 0 goal : 0
end
";

/// A flip that is worth no more than giving up.
static FLIP: &[u8] = b"cert 2
penalty 10000000
interval 0 10000000
atoms 0
acts 1
(flip)
states 1
0 10000000 0 :
end
";

/// A flip for its upper value, and the goal.
static HIGH_AND_GOAL: &[u8] = b"cert 2
penalty 10000000
interval 0 6000000
atoms 1
(heads)
acts 1
(flip)
states 2
0 6000000 0 :
0 0 goal : 0
end
";

/// The lower value of `LOW` with the act of `FLIP`.
static BOTH_FLIP: &[u8] = b"cert 2
penalty 10000000
interval 1000000 10000000
atoms 0
acts 1
(flip)
states 1
1000000 10000000 0 :
end
";

/// Wants that a certificate has this text, and is accepted.
fn check_text(
    rt: &impl Abort,
    alloc: Global,
    problem: &GroundProblem,
    merged: &Certificate,
    text: &[u8],
) -> Result<(), Fail> {
    let written = write(alloc, merged)?;
    assert_eq!(rt; written.as_slice(), text);
    drop(written);
    assert_eq!(rt; check(alloc, problem, merged)?, Verdict::Accepted);
    Ok(())
}

/// Merges two certificates that are accepted, and wants the text of both.
fn check_joint(
    rt: &impl Abort,
    alloc: Global,
    problem: &GroundProblem,
    first: &Certificate,
    second: &Certificate,
    text: &[u8],
) -> Result<(), Fail> {
    let Verdict::Accepted = check(alloc, problem, first)? else {
        panic!(rt; "the first of {text:?} is not accepted");
    };
    let Verdict::Accepted = check(alloc, problem, second)? else {
        panic!(rt; "the second of {text:?} is not accepted");
    };
    let merged = merge(alloc, problem, first, second)?;
    let checked = check_text(rt, alloc, problem, &merged, text);
    drop(merged);
    checked
}

/// The same where the second is read from its text.
fn check_second(
    rt: &impl Abort,
    alloc: Global,
    problem: &GroundProblem,
    first: &Certificate,
    second: &[u8],
    text: &[u8],
) -> Result<(), Fail> {
    let second = read(alloc, second)?;
    let checked = check_joint(rt, alloc, problem, first, &second, text);
    drop(second);
    checked
}

/// Merges two texts that are accepted, and wants the text of both, which is accepted too.
fn check_merged(
    rt: &impl Abort,
    alloc: Global,
    problem: &GroundProblem,
    first: &[u8],
    second: &[u8],
    text: &[u8],
) -> Result<(), Fail> {
    let first = read(alloc, first)?;
    let checked = check_second(rt, alloc, problem, &first, second, text);
    drop(first);
    checked
}

#[test]
fn certificates_of_a_coin_are_merged(rt: HostRuntime) -> Result<(), Fail> {
    let alloc = rt.alloc();
    let problem = coin(alloc)?;
    // Two certificates, and the text of both as one.
    let merged: [(&[u8], &[u8], &[u8]); 9] = [
        (LOW, HIGH, BOTH),
        (HIGH, LOW, BOTH),
        // With itself: in version 2 the text is as it was.
        (LOW, LOW, LOW_TOO),
        (BOTH, BOTH, BOTH),
        // Rows of the second alone, and of the first alone.
        (NOTHING, GOAL, GOAL_TOO),
        (GOAL, NOTHING, GOAL_TOO),
        (GOAL, HIGH, HIGH_AND_GOAL),
        // Of equal upper values the first's act.
        (FLIP, LOW, BOTH_FLIP),
        (LOW, FLIP, LOW_TOO),
    ];
    for (first, second, text) in &merged {
        check_merged(&rt, alloc, &problem, first, second, text)?;
    }
    Ok(())
}
