//! `serve`: what is answered and reported, and calls that fail.

use crate::runs::{Setting, run_on};
use crate::texts::shelf_of;
use shelf_io::MemoryShelf;
use std::alloc::{AllocError, Global};
use std::process::Abort;
use std::test::Fail;
use std::thread::Threads;

/// The words of a server over the coin that makes no rounds.
const SERVE: &str = "serve coin --cert s --rounds 0";

/// A query of each kind.
const QUERIES: &[u8] = b"state\nstate (done)\nstate (DONE)\nstate (foo)\nstat\n";

/// What is answered to these.
const ANSWERS: &str = "interval 0.000000 10.000000 give-up
interval 0.000000 0.000000 goal
interval 0.000000 0.000000 goal
error atom
error syntax
";

/// What is reported behind the answers.
const REPORT: &str = "stopped budget
interval 0.000000 10.000000
states 2
rounds 0
start 1/1 0.000000 10.000000 give-up :
";

/// The certificate that is written then.
const NOTHING_KNOWN: &[u8] = b"cert 2
penalty 10000000
interval 0 10000000
atoms 0
acts 0
states 0
end
";

/// Serves an input, and wants the answers, the report and the certificate.
fn check_answers<R: Threads + Sync + Abort>(
    rt: &R,
    alloc: Global,
    shelf: &mut MemoryShelf,
    input: &[u8],
    answers: &str,
) -> Result<(), AllocError> {
    let setting = Setting {
        words: SERVE,
        input,
        failing: (0, 0, 0),
    };
    shelf.hold("s", b"")?;
    let (status, out) = run_on(rt, alloc, shelf, setting)?;
    let report = out.bytes().strip_prefix(answers.as_bytes());
    assert_eq!(rt; report.unwrap_or(b""), REPORT.as_bytes());
    assert_eq!(rt; status, 1);
    drop(out);
    let written = shelf.bytes_of("s").unwrap_or(b"");
    assert_eq!(rt; written, NOTHING_KNOWN);
    Ok(())
}

/// One line that is one byte too long.
fn check_long<R: Threads + Sync + Abort>(
    rt: &R,
    alloc: Global,
    shelf: &mut MemoryShelf,
) -> Result<(), AllocError> {
    let long = "a".repeat(alloc, 65_537)?;
    let input = long.as_str().as_bytes();
    let checked = check_answers(rt, alloc, shelf, input, "error line\n");
    drop(long);
    checked
}

/// One query too many.
fn check_many<R: Threads + Sync + Abort>(
    rt: &R,
    alloc: Global,
    shelf: &mut MemoryShelf,
    answers: &str,
) -> Result<(), AllocError> {
    let many = "\n".repeat(alloc, 100_001)?;
    let input = many.as_str().as_bytes();
    let checked = check_answers(rt, alloc, shelf, input, answers);
    drop(many);
    checked
}

/// Queries of each kind; no query; a line that is one byte too long; one query too many.
fn check_inputs<R: Threads + Sync + Abort>(
    rt: &R,
    alloc: Global,
    shelf: &mut MemoryShelf,
) -> Result<(), AllocError> {
    check_answers(rt, alloc, shelf, QUERIES, ANSWERS)?;
    check_answers(rt, alloc, shelf, b"", "")?;
    check_long(rt, alloc, shelf)?;
    let refused = "error syntax\n".repeat(alloc, 100_000)?;
    let checked = check_many(rt, alloc, shelf, refused.as_str());
    drop(refused);
    checked
}

#[test]
fn queries_are_answered(rt: HostRuntime) -> Result<(), Fail> {
    let mut shelf = shelf_of(rt.alloc(), &[])?;
    let checked = check_inputs(&rt, rt.alloc(), &mut shelf);
    drop(shelf);
    Ok(checked?)
}

/// A state that is not near the start, in a line without its end.
fn check_far<R: Threads + Sync + Abort>(
    rt: &R,
    alloc: Global,
    shelf: &mut MemoryShelf,
) -> Result<(), AllocError> {
    let setting = Setting {
        words: "serve domain --problem problem --cert s --penalty 100 --rounds 0",
        input: b"state",
        failing: (0, 0, 0),
    };
    let (status, out) = run_on(rt, alloc, shelf, setting)?;
    assert!(rt; out.bytes().starts_with(b"unvisited\nstopped budget\n"));
    assert_eq!(rt; status, 1);
    drop(out);
    Ok(())
}

#[test]
fn far_states_are_unvisited(rt: HostRuntime) -> Result<(), Fail> {
    let mut shelf = shelf_of(rt.alloc(), &[])?;
    let checked = check_far(&rt, rt.alloc(), &mut shelf);
    drop(shelf);
    Ok(checked?)
}

/// What a failing call says behind the answers to the lines before it, if it is a read or a take.
const READ_FAILED: &[u8] = b"read failed\n";

/// What is put where no call fails begins with what was put before a fault, and is that where none was met.
fn begins_all(put: &[u8], met: bool) -> bool {
    let front = put.strip_suffix(READ_FAILED).unwrap_or(put);
    let report = front.strip_prefix(ANSWERS.as_bytes());
    match report {
        None => met && ANSWERS.as_bytes().starts_with(front),
        Some(part) => REPORT.as_bytes().starts_with(part) && (met || part.len() == REPORT.len()),
    }
}

/// Runs the server with one call that fails, and answers whether there was such a call. A read or a take that fails is
/// said behind the answers to the lines before it; behind a write or a put that fails nothing is put. No certificate
/// is written where a call failed, but for a put behind it.
fn check_failing<R: Threads + Sync + Abort>(
    rt: &R,
    alloc: Global,
    shelf: &mut MemoryShelf,
    failing: (u64, u64, u64),
) -> Result<bool, AllocError> {
    let setting = Setting {
        words: SERVE,
        input: QUERIES,
        failing,
    };
    let (status, out) = run_on(rt, alloc, shelf, setting)?;
    let met = status != 1;
    let is_read = out.bytes().ends_with(READ_FAILED);
    if met {
        assert_eq!(rt; status, if is_read { 3 } else { 4 });
    }
    assert!(rt; begins_all(out.bytes(), met));
    drop(out);
    let is_written = shelf.bytes_of("s").is_some();
    assert_eq!(rt; is_written, !met || failing.2 > 5);
    Ok(met)
}

/// Runs the server over all texts with one call that fails.
fn check_anew<R: Threads + Sync + Abort>(
    rt: &R,
    alloc: Global,
    failing: (u64, u64, u64),
) -> Result<bool, AllocError> {
    let mut shelf = shelf_of(alloc, &[])?;
    let met = check_failing(rt, alloc, &mut shelf, failing);
    drop(shelf);
    met
}

/// Each call of the shelf, of the source and of the sink fails in turn, until none is left to fail.
#[test]
fn calls_fail_in_turn(rt: HostRuntime) -> Result<(), Fail> {
    let alloc = rt.alloc();
    let mut met = (true, true, true);
    for call in 1..100u64 {
        if met.0 {
            met.0 = check_anew(&rt, alloc, (call, 0, 0))?;
        }
        if met.1 {
            met.1 = check_anew(&rt, alloc, (0, call, 0))?;
        }
        if met.2 {
            met.2 = check_anew(&rt, alloc, (0, 0, call))?;
        }
    }
    assert!(rt; !met.0 && !met.1 && !met.2);
    Ok(())
}
