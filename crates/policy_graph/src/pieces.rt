//! Pieces of lines.

ghost use Rattle.std.specs.Prelude.{◌≡◌, ◌++◌, decimal, OnOk};
ghost use Rattle.plan_report.specs.Reports.{fraction_text};
ghost use Rattle.plan_report.specs.Units.{units};
ghost use Rattle.policy_graph.specs.Text.{node_name, target_text};

use itoa::Buffer;
use plan_report::put_units;
use std::alloc::AllocError;

/// Appends a word and a number behind it.
pub(crate) fn push_numbered(out: &mut Vec<u8>, word: &[u8], number: u64) -> Result<(), AllocError>
    ensures { OnOk result (out.new.items ≡ out.old.items ++ (word.now ++ decimal number)) }
{
    let mut buffer = Buffer::new();
    out.extend_from_slice(word)?;
    out.extend_from_slice(buffer.format(number).as_bytes())
}

/// Appends a fraction.
pub(crate) fn push_fraction(out: &mut Vec<u8>, weight: u64, den: u64) -> Result<(), AllocError>
    ensures { OnOk result (out.new.items ≡ out.old.items ++ fraction_text weight den) }
{
    push_numbered(out, b"", weight)?;
    push_numbered(out, b"/", den)
}

/// Appends a word and an amount behind it, in units.
pub(crate) fn push_units(out: &mut Vec<u8>, word: &[u8], amount: u64) -> Result<(), AllocError>
    ensures { OnOk result (out.new.items ≡ out.old.items ++ (word.now ++ units amount)) }
{
    out.extend_from_slice(word)?;
    let mut buffer = [0; 24];
    let length = put_units(amount, &mut buffer);
    out.extend_from_slice(&buffer[..length])
}

/// Appends the name of the node in this place.
pub(crate) fn push_name(out: &mut Vec<u8>, place: u32) -> Result<(), AllocError>
    ensures { OnOk result (out.new.items ≡ out.old.items ++ node_name place) }
{
    push_numbered(out, b"n", u64::from(place))
}

/// Appends the name of the node where an edge leads to.
pub(crate) fn push_target(out: &mut Vec<u8>, to: Option<u32>) -> Result<(), AllocError>
    ensures { OnOk result (out.new.items ≡ out.old.items ++ target_text to) }
{
    match to {
        None => out.extend_from_slice(b"more"),
        Some(place) => push_name(out, place),
    }
}
