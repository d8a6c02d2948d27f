//! What words ask for.

use plan_request::{Effort, Ends, Lower, Request, Sizes, request_of};
use std::test::Fail;

const DEFAULT_EFFORT: Effort = Effort {
    gap: 1_000,
    rounds: 1_000,
    trials: 64,
    depth: 1_000,
    tau: 10,
    seed: 1,
    ends: Ends::New,
};

const DEFAULT_SIZES: Sizes = Sizes {
    workers: 4,
    states: 65_536,
    sweep_states: 64,
};

/// Words that ask to solve `coin`, the name of the certificate, and the numbers.
static SOLVING: [(&str, &str, Effort, Sizes); 3] = [
    ("solve coin --cert c", "c", DEFAULT_EFFORT, DEFAULT_SIZES),
    (
        "solve coin --cert c --ends depth",
        "c",
        Effort {
            ends: Ends::Depth,
            ..DEFAULT_EFFORT
        },
        Sizes {
            sweep_states: 4_096,
            ..DEFAULT_SIZES
        },
    ),
    (
        "solve --cert=c=d coin --gap 0.5 --seed 007 --states=65 --ends depth",
        "c=d",
        Effort {
            gap: 500_000,
            seed: 7,
            ends: Ends::Depth,
            ..DEFAULT_EFFORT
        },
        Sizes {
            states: 65,
            sweep_states: 64,
            ..DEFAULT_SIZES
        },
    ),
];

#[test]
fn searches_have_defaults(rt: HostRuntime) -> Result<(), Fail> {
    let alloc = rt.alloc();
    for (line, certificate, effort, sizes) in &SOLVING {
        let words: Vec<&str> = line.split_ascii_whitespace().collect(alloc)?;
        let Some(Request::Solve(found)) = request_of(alloc, &words)? else {
            assert!(rt; false, "{line}");
            return Ok(());
        };
        assert_eq!(rt; found.sources.domain, "coin", "{line}");
        assert_eq!(rt; found.certificate, *certificate, "{line}");
        assert_eq!(rt; found.effort, *effort, "{line}");
        assert_eq!(rt; found.sizes, *sizes, "{line}");
        assert_eq!(rt; found.lower, Lower::None, "{line}");
    }
    Ok(())
}

/// Words that ask for nothing.
static BAD: [&str; 22] = [
    "",
    "help",
    "solve coin --help",
    // A word too few, and a value that begins with a dash.
    "check coin",
    "solve coin",
    "ground",
    "check coin --cert -c",
    "solve coin --cert c --gap -1",
    // An option twice, and one of another command.
    "check coin --cert c --cert c",
    "ground coin --step-cost 1 --step-cost 1",
    "solve coin --cert c --gap 1 --gap 2",
    "ground coin --cert c",
    "serve coin --cert c --lower cost",
    "check coin --cert c --lower cost",
    "solve coin --cert c --lower higher",
    // Numbers out of their ranges.
    "check coin --cert c --penalty 0",
    "solve coin --cert c --states 65 --sweep-states 65",
    "draw coin --cert c --into h --states 0",
    "draw coin --cert c --into h --states 10001",
    "bench 1 4",
    "bench 1001 4",
    "bench 2 18446744073709551616",
];

#[test]
fn words_ask_for_nothing(rt: HostRuntime) -> Result<(), Fail> {
    let alloc = rt.alloc();
    for line in &BAD {
        let words: Vec<&str> = line.split_ascii_whitespace().collect(alloc)?;
        assert!(rt; request_of(alloc, &words)?.is_none(), "{line}");
    }
    let bench = ["bench", "0002", "18446744073709551615"];
    let found = request_of(alloc, &bench)?;
    let is_largest = matches!(
        found,
        Some(Request::Bench {
            places: 2,
            seed: u64::MAX
        })
    );
    assert!(rt; is_largest);
    Ok(())
}
