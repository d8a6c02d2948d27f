//! Certificates.

ghost use Rattle.std.specs.Prelude.{◌≡◌, ◌+◌, ◌≤◌};
ghost use Rattle.shelf_io.specs.Shelf.{Missing};
ghost use Rattle.plan_sources.specs.Endings.{MayEnd, MayGive, IsFault, OnlyRead};
ghost use Rattle.plan_sources.specs.Sources.{certificate_in};

use certificate::{CertRefusal, Certificate, MOST_BYTES, text_laws};
use plan_request::Stop;
use shelf_io::{Shelf, ShelfFault};
use std::alloc::Global;

/// The certificate whose text is held under a name, or what stops the run.
pub fn certificate_of<S: Shelf>(
    alloc: Global,
    name: &str,
    shelf: &mut S,
) -> Result<Certificate, Stop>
    ensures ends { MayEnd
        (IsFault S.read_faults shelf.old shelf.new (S.held shelf.old name.now ≡ Missing))
        (MayGive certificate_in (S.held shelf.old name.now)) result }
    ensures calls { S.calls shelf.new ≤ S.calls shelf.old + 1 }
    ensures shelf { OnlyRead S.held S.read_faults S.write_faults shelf.old shelf.new }
{
    text_laws();
    match shelf.read(alloc, name, MOST_BYTES as u64) {
        Ok(bytes) => Ok(certificate::read(alloc, bytes.as_slice())?),
        Err(ShelfFault::Failed) => Err(Stop::ReadFailed),
        Err(ShelfFault::TooLong) => Err(Stop::from(CertRefusal::TooLong)),
        Err(ShelfFault::Memory) => Err(Stop::NoMemory),
    }
}
