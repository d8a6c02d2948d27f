//! Amounts in units.

ghost use Rattle.std.specs.Prelude.{◌≡◌, ◌≤◌, ◌<◌, ◌+◌, ◌++◌, ◌∷◌, [], take};
ghost use Rattle.plan_report.specs.Units.{digit, six_digits, units};

use itoa::Buffer;

/// The decimal digit of a number at a place: 1, 10, 100 and so on.
fn digit(number: u64, place: u64) -> u8
    requires { ◌≤◌ 1 place }
    ensures { result ≡ digit number place }
{
    b'0' + (number / place % 10) as u8
}

/// The six digits of a number below a million, with zeros in front.
pub(crate) fn six_digits(number: u64) -> [u8; 6]
    ensures { result ≡ six_digits number }
{
    [
        digit(number, 100_000),
        digit(number, 10_000),
        digit(number, 1_000),
        digit(number, 100),
        digit(number, 10),
        digit(number, 1),
    ]
}

/// Writes a byte at a place, and answers the next place.
fn put(into: &mut [u8; 24], place: usize, byte: u8) -> usize
    requires { place < 24 }
    ensures next { result ≡ place + 1 }
    ensures front { take (place + 1) into.new ≡ take place into.old ++ byte ∷ [] }
{
    into[place] = byte;
    place + 1
}

/// Writes micro-units as units with exactly six decimals, as `0.700000`, to the front of a buffer, and
/// answers how many bytes they take. It takes no memory.
pub fn put_units(value: u64, into: &mut [u8; 24]) -> usize
    ensures within { result ≤ 24 }
    ensures text { take result into.new ≡ units value }
{
    let mut buffer = Buffer::new();
    let whole = buffer.format(value / 1_000_000).as_bytes();
    let mut place = 0;
    for byte in whole {
        place = put(into, place, *byte);
    }
    place = put(into, place, b'.');
    let digits = six_digits(value % 1_000_000);
    for digit in digits.as_slice() {
        place = put(into, place, *digit);
    }
    place
}
