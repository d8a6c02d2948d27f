//! Probabilities and amounts.

use exact_fraction::{Fraction, NumberRefusal, read_amount, read_probability};

/// What is wrong comes in this order: form, digits, a denominator of 0, range.
#[test]
fn probabilities(rt: HostRuntime) {
    let rows: [(&str, Result<(u64, u64), NumberRefusal>); 17] = [
        ("0", Ok((0, 1))),
        (".5", Ok((1, 2))),
        ("00.50", Ok((1, 2))),
        ("1.000000000", Ok((1, 1))),
        ("0.123456789", Ok((123_456_789, 1_000_000_000))),
        ("2/4", Ok((1, 2))),
        ("0/7", Ok((0, 1))),
        ("0007/00000000000000000000000000007", Ok((1, 1))),
        ("1.", Err(NumberRefusal::Form)),
        ("/2", Err(NumberRefusal::Form)),
        ("0.5/1", Err(NumberRefusal::Form)),
        ("-1", Err(NumberRefusal::Form)),
        ("2.0000000000", Err(NumberRefusal::TooManyDigits)),
        ("1/1000000001", Err(NumberRefusal::TooManyDigits)),
        ("2/0", Err(NumberRefusal::ZeroDenominator)),
        ("3/2", Err(NumberRefusal::OutOfRange)),
        ("18446744073709551617", Err(NumberRefusal::OutOfRange)),
    ];
    for (text, wanted) in rows {
        let wanted = wanted.map(|(num, den)| Fraction { num, den });
        assert_eq!(rt; read_probability(text.as_bytes()), wanted, "{text}");
    }
}

/// Amounts up to a million units, in micro-units.
#[test]
fn amounts(rt: HostRuntime) {
    let rows: [(&str, Result<u64, NumberRefusal>); 10] = [
        ("0", Ok(0)),
        (".000001", Ok(1)),
        ("001.500000", Ok(1_500_000)),
        ("1000000", Ok(1_000_000_000_000)),
        ("1000000.000001", Err(NumberRefusal::OutOfRange)),
        ("18446744073709551616", Err(NumberRefusal::OutOfRange)),
        ("9999999.0000000", Err(NumberRefusal::TooManyDigits)),
        ("1.", Err(NumberRefusal::Form)),
        ("1/2", Err(NumberRefusal::Form)),
        ("+1", Err(NumberRefusal::Form)),
    ];
    for (text, wanted) in rows {
        let amount = read_amount(text.as_bytes(), 1_000_000_000_000);
        assert_eq!(rt; amount, wanted, "{text}");
    }
}
