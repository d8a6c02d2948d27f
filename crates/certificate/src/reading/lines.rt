//! Lines, which line feeds end.

ghost use Rattle.std.specs.Prelude.{◌≡◌};
ghost use Rattle.certificate.specs.Decoding.{parts};
ghost use Rattle.certificate.specs.Counted.{line_at};
ghost use Rattle.certificate.specs.Reading.{end_of, nothing_at};
ghost use Rattle.certificate.specs.Answers.{GivesCertificate};

use crate::CertRefusal;
use crate::reading::fields::cut;

/// The line with this number and what stands behind its line feed.
pub(super) fn line_at(line: u32, bytes: &[u8]) -> Result<(&[u8], &[u8]), CertRefusal>
    ensures { GivesCertificate (λ found. (found.0.now, parts 10 found.1.now)) result
        (line_at line (parts 10 bytes.now)) }
{
    cut(b'\n', bytes).ok_or(CertRefusal::Syntax { line })
}

/// The last line.
pub(super) fn end_of(line: &[u8]) -> Option<()>
    ensures { result ≡ end_of line.now }
{
    (line == b"end".as_slice()).then_some(())
}

/// Checks that behind `end` stands nothing.
pub(super) fn nothing_at(line: u32, bytes: &[u8]) -> Result<(), CertRefusal>
    ensures { result ≡ nothing_at line (parts 10 bytes.now) }
{
    if !bytes.is_empty() {
        return Err(CertRefusal::Syntax { line });
    }
    Ok(())
}
