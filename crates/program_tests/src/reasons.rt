//! Why runs are stopped, as it is noted beside the output.

use crate::problems::REFUSED;
use crate::runs::run_noted;
use crate::texts::shelf_of;
use std::alloc::{AllocError, Global};
use std::process::Abort;
use std::test::Fail;
use std::thread::Threads;

/// What is noted of each code of refused texts, from 1.
static SENTENCES: [&str; 19] = [
    "",
    "a byte is not allowed outside comments",
    "a parenthesis has no partner",
    "more than 100 parentheses are open",
    "no planning text goes on like this",
    "a name or variable is not declared before its use",
    "there are too many or too few arguments",
    "an argument is not of its parameter's type",
    "a probability is above 1, or the common denominator goes above 10^18",
    "the probabilities go above 1 in sum",
    "this form is outside the profile of PPDDL that is read",
    "this is not a number of the form and range that are wanted here",
    "no domain is defined before",
    "no problem is defined behind the domain",
    "this is given a second time, or in another way than before",
    "the problem is of another domain",
    "a type is its own ancestor, or object is under another type",
    "outside when and probabilistic this action may cost nothing",
    "neither --penalty nor :goal-reward gives the price of giving up",
];

/// Wants what is noted of a run over the texts with other words in places.
fn check_noted<R: Threads + Sync + Abort>(
    rt: &R,
    alloc: Global,
    edits: &[(&str, &str, &str)],
    words: &str,
    note: &str,
) -> Result<(), AllocError> {
    let mut shelf = shelf_of(alloc, edits)?;
    let noted = run_noted(rt, alloc, &mut shelf, words);
    drop(shelf);
    let notes = noted?;
    assert_eq!(rt; notes.bytes(), note.as_bytes(), "{words}");
    drop(notes);
    Ok(())
}

/// Each code of refused texts, in the text of the domain and in that of the problem.
#[test]
fn refused_texts(rt: HostRuntime) -> Result<(), Fail> {
    let alloc = rt.alloc();
    for (old, new, code, line) in &REFUSED {
        let Some(sentence) = SENTENCES.get(*code as usize) else {
            continue;
        };
        let edits = [("coin", *old, *new)];
        let note = format!(in alloc; "coin:{line}: {sentence}\n")?;
        check_noted(&rt, alloc, &edits, "ground coin", note.as_str())?;
        check_noted(
            &rt,
            alloc,
            &edits,
            "ground blank --problem coin",
            note.as_str(),
        )?;
    }
    Ok(())
}

/// The first words of a row.
const CHECK: &str = "check coin --cert c";

/// What stands in place of what in which text, the words of the run, and what is noted.
static NOTED: [(&[(&str, &str, &str)], &str, &str); 15] = [
    (
        &[("c", "end\n", "end")],
        CHECK,
        "c:6: no certificate has such a line here\n",
    ),
    (
        &[("c2", "acts 1\n(flip)\n", "acts 2\n(flip)\n(flip)\n")],
        "check coin --cert c2",
        "c2:7: the line, or what stands in it, is out of order\n",
    ),
    (
        &[("c", "states 1", "states 2")],
        CHECK,
        "c:6: a list has more or fewer lines here than its count says\n",
    ),
    (
        &[("c", "\n2000000", "\n2000001")],
        CHECK,
        "c: row 1: the lower value is above what giving up or an open action costs, or is not 0 at a goal\n",
    ),
    (
        &[("c", "2000000 (", "1999999 (")],
        CHECK,
        "c: row 1: the upper value is below what the act costs, or is not 0 at a goal\n",
    ),
    (
        &[("c", "(flip)", "(hop)")],
        "walk coin --cert c",
        "c: row 1: the act is goal at no goal, another one at a goal, or an action that is not open\n",
    ),
    (
        &[("c", "val 2000000", "val 1999999")],
        CHECK,
        "c: the interval is not that of the initial states\n",
    ),
    (
        &[("c", "penalty 10000000", "penalty 9000000")],
        CHECK,
        "c: the penalty is not that of the task\n",
    ),
    (
        &[("c", "(flip) :", "(flip) : (foo)")],
        CHECK,
        "c: row 1: an atom is none that may change\n",
    ),
    (
        &[("c2", "atoms 0\n", "atoms 1\n(done)\n")],
        "check coin --cert c2",
        "c2:5: no row uses this line\n",
    ),
    // The second of two certificates.
    (
        &[],
        "merge coin --cert c --with two --into c",
        "two:1: no certificate has such a line here\n",
    ),
    // Two of the limits on a task.
    (
        &[(
            "task",
            "EFFECT",
            "(and (probabilistic 1/1000000000 (a)) (probabilistic 1/999999999 (b) 1/999999998 (c)))",
        )],
        "ground task",
        "task: more than 1000000000000000000 as the denominator of an action's effect or of :init\n",
    ),
    (
        &[(
            "task",
            "EFFECT",
            "(forall (?w ?x ?y ?z) (decrease (reward) 1000000))",
        )],
        "solve task --cert c",
        "task: more than 10000000000000 micro-units of one choice with all its guarded costs\n",
    ),
    // Nothing is noted of other endings: a name that is missing, and a report.
    (&[], "ground missing", ""),
    (&[], CHECK, ""),
];

#[test]
fn other_stops(rt: HostRuntime) -> Result<(), Fail> {
    for (edits, words, note) in &NOTED {
        check_noted(&rt, rt.alloc(), edits, words, note)?;
    }
    Ok(())
}

/// Words that ask for nothing, and what is noted first.
static BAD_WORDS: [(&str, &str); 13] = [
    ("", "a command is wanted\nusage: ppddl_plan solve DOMAIN"),
    (
        "sovle coin",
        "no command has this name: sovle\nusage: ppddl_plan solve DOMAIN",
    ),
    (
        "--help",
        "no command has this name: --help\nusage: ppddl_plan solve DOMAIN",
    ),
    (
        "bench 2 1 3",
        "this is one name too many: 3\nusage: ppddl_plan bench N SEED\n",
    ),
    (
        "bench 2",
        "a name is missing: SEED\nusage: ppddl_plan bench N SEED\n",
    ),
    (
        "check --cert c",
        "a name is missing: DOMAIN\nusage: ppddl_plan check DOMAIN",
    ),
    (
        "ground coin --gap 1",
        "this is neither a name nor an option of the command with its value: --gap\n",
    ),
    (
        "check coin --cert=",
        "this is neither a name nor an option of the command with its value: --cert=\n",
    ),
    (
        "solve coin --cert c --gap",
        "an option has no value: --gap\n",
    ),
    (
        "solve coin --gap -1 --cert c",
        "an option has no value: --gap\n",
    ),
    (
        "solve coin --cert c --cert=d",
        "an option stands twice: --cert\n",
    ),
    (
        "check coin",
        "an option is wanted: --cert\nusage: ppddl_plan check DOMAIN",
    ),
    (
        "bench 1 1",
        "N takes a whole number from 2 to 1000: 1\nusage: ppddl_plan bench N SEED\n",
    ),
];

#[test]
fn bad_words(rt: HostRuntime) -> Result<(), Fail> {
    let alloc = rt.alloc();
    let mut shelf = shelf_of(alloc, &[])?;
    for (words, first) in &BAD_WORDS {
        let wanted = format!(in alloc; "bad words: {first}")?;
        let notes = run_noted(&rt, alloc, &mut shelf, words)?;
        assert!(rt;
            notes.bytes().starts_with(wanted.as_str().as_bytes()),
            "{words}"
        );
    }
    Ok(())
}
