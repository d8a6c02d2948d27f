//! What is said of certificates of two coins, and what tells of it.

use certificate::read;
use certificate_check::{Verdict, check};
use ground_model::GroundProblem;
use plan_report::account;
use sample_problems::{coin, sure_coin};
use std::alloc::Global;
use std::process::Abort;
use std::test::Fail;

/// Certificates of the coin, each with the verdict on it and what tells of that.
static COIN: [(&[u8], Verdict, &[u8]); 18] = [
    // The values themselves, and values that are close.
    (
        b"cert 1
penalty 10000000
interval 2000000 2000000
states 1
2000000 2000000 (flip) :
end
",
        Verdict::Accepted,
        b"",
    ),
    (
        b"cert 2
penalty 10000000
interval 1999999 2000001
atoms 0
acts 1
(flip)
states 1
1999999 2000001 0 :
end
",
        Verdict::Accepted,
        b"",
    ),
    // A row for the goal beside them.
    (
        b"cert 2
penalty 10000000
interval 1999999 2000001
atoms 1
(heads)
acts 1
(flip)
states 2
1999999 2000001 0 :
0 0 goal : 0
end
",
        Verdict::Accepted,
        b"",
    ),
    // Nothing is known of any state.
    (
        b"cert 1
penalty 10000000
interval 0 10000000
states 0
end
",
        Verdict::Accepted,
        b"",
    ),
    // Each value, one micro-unit off. Rows are tested before those behind them, the lower value first.
    (
        b"cert 1
penalty 10000000
interval 2000000 2000000
states 2
2000001 2000000 (flip) :
0 0 goal : (foo)
end
",
        Verdict::Lower { row: 1 },
        b"lower value 2.000001 is above 2.000000, the most that its acts allow; state :",
    ),
    (
        b"cert 1
penalty 10000000
interval 2000000 2000000
states 1
2000001 1999999 (flip) :
end
",
        Verdict::Lower { row: 1 },
        b"lower value 2.000001 is above 2.000000, the most that its acts allow; state :",
    ),
    (
        b"cert 1
penalty 10000000
interval 2000000 2000000
states 1
2000000 1999999 (flip) :
end
",
        Verdict::Upper { row: 1 },
        b"upper value 1.999999 is below 2.000000, the least that its act allows; state :",
    ),
    // A value at a goal.
    (
        b"cert 1
penalty 10000000
interval 2000000 2000000
states 2
2000000 2000000 (flip) :
0 1 goal : (heads)
end
",
        Verdict::Upper { row: 2 },
        b"upper value 0.000001 is above 0.000000, which it is at a goal; state : (heads)",
    ),
    // An atom that is not there, in each version.
    (
        b"cert 1
penalty 10000000
interval 2000000 2000000
states 1
2000000 2000000 (flip) : (foo)
end
",
        Verdict::UnknownAtom { row: 1 },
        b"state : (foo)",
    ),
    (
        b"cert 2
penalty 10000000
interval 1999999 2000001
atoms 1
(foo)
acts 1
(flip)
states 2
1999999 2000001 0 :
0 0 goal : 0
end
",
        Verdict::UnknownAtom { row: 2 },
        b"state : (foo)",
    ),
    // Another penalty, which is tested before the rows.
    (
        b"cert 1
penalty 9000000
interval 2000000 2000000
states 1
2000001 2000000 (hop) :
end
",
        Verdict::Penalty,
        b"penalty 9.000000 is not 10.000000, that of the problem",
    ),
    // An action that is not there; a row's act is tested before its values.
    (
        b"cert 1
penalty 10000000
interval 2000000 2000000
states 1
2000001 2000000 (hop) :
end
",
        Verdict::Act { row: 1 },
        b"state :",
    ),
    // An action at a goal, and the act of goals elsewhere.
    (
        b"cert 1
penalty 10000000
interval 2000000 2000000
states 2
2000000 2000000 (flip) :
0 0 (flip) : (heads)
end
",
        Verdict::Act { row: 2 },
        b"state : (heads)",
    ),
    (
        b"cert 1
penalty 10000000
interval 2000000 2000000
states 1
2000000 2000000 goal :
end
",
        Verdict::Act { row: 1 },
        b"state :",
    ),
    // A lower value above the penalty, and one at a goal.
    (
        b"cert 1
penalty 10000000
interval 0 10000000
states 1
10000001 10000000 give-up :
end
",
        Verdict::Lower { row: 1 },
        b"lower value 10.000001 is above 6.000000, the most that its acts allow; state :",
    ),
    (
        b"cert 1
penalty 10000000
interval 0 10000000
states 2
0 10000000 give-up :
1 0 goal : (heads)
end
",
        Verdict::Lower { row: 2 },
        b"lower value 0.000001 is above 0.000000, the most that its acts allow; state : (heads)",
    ),
    // An upper value below what giving up costs.
    (
        b"cert 1
penalty 10000000
interval 0 9999999
states 1
0 9999999 give-up :
end
",
        Verdict::Upper { row: 1 },
        b"upper value 9.999999 is below 10.000000, the least that its act allows; state :",
    ),
    // A lower end that is one micro-unit off.
    (
        b"cert 1
penalty 10000000
interval 1999999 2000000
states 1
2000000 2000000 (flip) :
end
",
        Verdict::Ends,
        b"interval 1.999999 2.000000 is not 2.000000 2.000000, that of the initial states",
    ),
];

/// Certificates of the coin with two initial states, of which one is a goal: the mean over both, and an upper
/// end that is one micro-unit off.
static SURE_COIN: [(&[u8], Verdict, &[u8]); 2] = [
    (
        b"cert 1
penalty 10000000
interval 700000 700000
states 1
1000000 1000000 (flip) :
end
",
        Verdict::Accepted,
        b"",
    ),
    (
        b"cert 1
penalty 10000000
interval 700000 700001
states 1
1000000 1000000 (flip) :
end
",
        Verdict::Ends,
        b"interval 0.700000 0.700001 is not 0.700000 0.700000, that of the initial states",
    ),
];

/// Checks each text, and wants the verdict and the account beside it.
fn check_rows(
    rt: &impl Abort,
    alloc: Global,
    problem: &GroundProblem,
    rows: &[(&[u8], Verdict, &[u8])],
) -> Result<(), Fail> {
    for (text, wanted, told) in rows {
        let certificate = read(alloc, text)?;
        let verdict = check(alloc, problem, &certificate)?;
        assert_eq!(rt; verdict, *wanted, "{text:?}");
        let account = account(alloc, problem, &certificate, verdict)?;
        assert_eq!(rt; account.as_slice(), *told, "{text:?}");
    }
    Ok(())
}

#[test]
fn certificates_of_coins_are_checked(rt: HostRuntime) -> Result<(), Fail> {
    let alloc = rt.alloc();
    check_rows(&rt, alloc, &coin(alloc)?, &COIN)?;
    check_rows(&rt, alloc, &sure_coin(alloc)?, &SURE_COIN)
}

#[test]
fn long_states_are_cut(rt: HostRuntime) -> Result<(), Fail> {
    let alloc = rt.alloc();
    let mut text = String::from_str(
        alloc,
        "cert 1\npenalty 10000000\ninterval 0 9\nstates 1\n0 9 goal :",
    )?;
    let mut told = String::from_str(alloc, "state :")?;
    for n in 1000..1300 {
        let atom = format!(in alloc; " (l{n})")?;
        text.push_str(atom.as_str())?;
        // Eight bytes each.
        if n < 1225 {
            told.push_str(atom.as_str())?;
        }
    }
    text.push_str("\nend\n")?;
    told.push_str(" ..")?;
    let problem = coin(alloc)?;
    let certificate = read(alloc, text.as_bytes())?;
    let verdict = check(alloc, &problem, &certificate)?;
    let account = account(alloc, &problem, &certificate, verdict)?;
    assert_eq!(rt; account.as_slice(), told.as_bytes());
    Ok(())
}
