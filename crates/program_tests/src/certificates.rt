//! `check` of certificates of the coin.

use crate::runs::check_edited;
use crate::texts::ACCEPTED;
use std::test::Fail;

/// The first words of a row.
const CHECK: &str = "check coin --cert c";

/// What stands in place of what in which text, and what is told of the certificate then.
static CHECKED: [(&[(&str, &str, &str)], &str, u8, &str); 25] = [
    // The values themselves, with the words in each form.
    (&[], CHECK, 0, ACCEPTED),
    (&[], "check coin --cert=c", 0, ACCEPTED),
    (&[], "check --cert c coin", 0, ACCEPTED),
    (&[], "check coin --cert c --penalty=10", 0, ACCEPTED),
    // Values that are close, in version 2.
    (
        &[],
        "check coin --cert c2",
        0,
        "accepted\ninterval 1.999999 2.000001\nstates 1\n",
    ),
    // A chance of a third.
    (
        &[("coin", "0.5", "1/3"), ("c", "2000000", "3000000")],
        CHECK,
        0,
        "accepted\ninterval 3.000000 3.000000\nstates 1\n",
    ),
    // A precondition that always holds.
    (
        &[(
            "coin",
            "(:action flip",
            "(:action flip :precondition (or (done) (not (done)))",
        )],
        CHECK,
        0,
        ACCEPTED,
    ),
    // A start that is a goal with a chance of 0.3, and a flip that is sure.
    (
        &[
            ("coin", "(:init)", "(:init (probabilistic 0.3 (done)))"),
            ("coin", "(probabilistic 0.5 (done))", "(done)"),
            ("c", " 2000000 2000000\n", " 700000 700000\n"),
            ("c", "\n2000000 2000000", "\n1000000 1000000"),
        ],
        CHECK,
        0,
        "accepted\ninterval 0.700000 0.700000\nstates 1\n",
    ),
    // No rows: from 0 to the penalty.
    (
        &[
            ("c", " 2000000 2000000\n", " 0 10000000\n"),
            ("c", "states 1", "states 0"),
            ("c", "2000000 2000000 (flip) :\n", ""),
        ],
        CHECK,
        0,
        "accepted\ninterval 0.000000 10.000000\nstates 0\n",
    ),
    // No last line feed, a leading zero, another text, and a number that is its table's length.
    (&[("c", "end\n", "end")], CHECK, 7, "not accepted 30 6\n"),
    (&[("c", "val 2", "val 02")], CHECK, 7, "not accepted 30 3\n"),
    (&[], "check coin --cert two", 7, "not accepted 30 1\n"),
    (
        &[("c2", "2000001 0 :", "2000001 1 :")],
        "check coin --cert c2",
        7,
        "not accepted 30 8\n",
    ),
    // A row twice, and an entry twice.
    (
        &[
            ("c", "states 1", "states 2"),
            (
                "c",
                "2000000 2000000 (flip) :\n",
                "2000000 2000000 (flip) :\n2000000 2000000 (flip) :\n",
            ),
        ],
        CHECK,
        7,
        "not accepted 31 6\n",
    ),
    (
        &[
            ("c2", "acts 1\n", "acts 2\n"),
            ("c2", "(flip)\n", "(flip)\n(flip)\n"),
        ],
        "check coin --cert c2",
        7,
        "not accepted 31 7\n",
    ),
    // A row too few.
    (
        &[("c", "states 1", "states 2")],
        CHECK,
        7,
        "not accepted 32 6\n",
    ),
    // Each value, one micro-unit off.
    (
        &[("c", "\n2000000", "\n2000001")],
        CHECK,
        7,
        "not accepted 34 1\n",
    ),
    (
        &[("c", "2000000 (", "1999999 (")],
        CHECK,
        7,
        "not accepted 35 1\n",
    ),
    // An action that is not there, and the act of goals elsewhere.
    (&[("c", "(flip)", "(hop)")], CHECK, 7, "not accepted 36 1\n"),
    (&[("c", "(flip)", "goal")], CHECK, 7, "not accepted 36 1\n"),
    // Another interval.
    (
        &[("c", "val 2000000", "val 1999999")],
        CHECK,
        7,
        "not accepted 37 0\n",
    ),
    // Another penalty in the certificate, which is tested before the rows, and in the words.
    (
        &[
            ("c", "penalty 10000000", "penalty 9000000"),
            ("c", "(flip)", "(hop)"),
        ],
        CHECK,
        7,
        "not accepted 38 0\n",
    ),
    (
        &[],
        "check coin --cert c --penalty 9",
        7,
        "not accepted 38 0\n",
    ),
    // An atom that is not there.
    (
        &[("c", "(flip) :", "(flip) : (foo)")],
        CHECK,
        7,
        "not accepted 39 1\n",
    ),
    // An entry that no row uses.
    (
        &[("c2", "atoms 0\n", "atoms 1\n(done)\n")],
        "check coin --cert c2",
        7,
        "not accepted 40 5\n",
    ),
];

#[test]
fn certificates_are_checked(rt: HostRuntime) -> Result<(), Fail> {
    for (edits, words, status, text) in &CHECKED {
        check_edited(&rt, rt.alloc(), edits, (words, *status, text))?;
    }
    Ok(())
}
