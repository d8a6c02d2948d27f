//! A write to a folder, by a new file beside the name.

ghost use Rattle.std.specs.Prelude.{◌≡◌, ◌≢◌, ◌⊎◌, [], IfOk, OnOk, OnErr, string_bytes};
ghost use Rattle.shelf_io.specs.Folder as specs;
ghost use Rattle.shelf_io.specs.Shelf.{MayHold, written};
ghost use Rattle.shelf_io.specs.Folder.{cleared, OnlyIn, IsWhole, Leaves};

use crate::WriteFault;
use crate::adapters::folder::calls::Folder;
use std::alloc::{AllocError, Global};
use std::io;
use std::io::ErrorKind;

/// How many names are tried for a new file beside another.
const TRIES: u32 = 1000;

/// Writes the bytes into a new file beside the name, and then gives that file the name.
///
/// So after a crash or on a full disk the name has what it had, or all the bytes. A crash may leave the
/// new file.
pub(crate) fn write_file<F: Folder>(
    folder: &mut F,
    alloc: Global,
    name: &str,
    bytes: &[u8],
) -> Result<(), WriteFault>
    ensures written { OnOk result (F.held folder.new name.now
        ≡ written (F.held folder.old name.now) bytes.now) }
    ensures whole { IsWhole (F.held folder.old name.now) (F.held folder.new name.now) bytes.now }
    ensures others { Leaves name.now (F.held folder.old) (F.held folder.new) (F.stays folder.new) }
{
    for number in 0..TRIES {
        let text = part_name(alloc, name, number)?;
        let part = text.as_str();
        match folder.make(part) {
            Ok(file) => return replace(folder, file, part, name, bytes),
            Err(error) if error.kind() == ErrorKind::AlreadyExists => {}
            Err(error) => return Err(WriteFault::from(error)),
        }
    }
    Err(WriteFault::Failed)
}

/// The name of a new file beside a name.
fn part_name(alloc: Global, name: &str, number: u32) -> Result<String, AllocError>
    ensures text { IfOk result (λ part. string_bytes part ≡ specs.part_name name.now number) }
    ensures apart { IfOk result (λ part. name.now ≢ string_bytes part) }
{
    let part = format!(in alloc; "{name}.{number}.part")?;
    Ok(part)
}

/// Fills a new file and gives it the name. Where that fails, the new file is removed.
fn replace<F: Folder>(
    folder: &mut F,
    mut file: F::File,
    part: &str,
    name: &str,
    bytes: &[u8],
) -> Result<(), WriteFault>
    requires empty { MayHold (F.held folder.old part.now) [] }
    requires apart { name.now ≢ part.now }
    ensures written { OnOk result (F.held folder.new name.now
        ≡ written (F.held folder.old name.now) bytes.now) }
    ensures whole { IsWhole (F.held folder.old name.now) (F.held folder.new name.now) bytes.now }
    ensures gone { (F.held folder.new part.now ≡ cleared (F.held folder.old part.now))
        ⊎ F.stays folder.new part.now }
    ensures others { OnlyIn name.now part.now (F.held folder.old) (F.held folder.new) }
{
    match fill_and_name(folder, &mut file, part, name, bytes) {
        Ok(()) => Ok(()),
        Err(error) => {
            let _ = folder.remove(part);
            Err(WriteFault::from(error))
        }
    }
}

/// Fills a new file, waits until the disk has it, and gives it the name.
fn fill_and_name<F: Folder>(
    folder: &mut F,
    file: &mut F::File,
    part: &str,
    name: &str,
    bytes: &[u8],
) -> io::Result<()>
    requires empty { MayHold (F.held folder.old part.now) [] }
    requires apart { name.now ≢ part.now }
    ensures written { OnOk result (F.held folder.new name.now
        ≡ written (F.held folder.old name.now) bytes.now) }
    ensures whole { IsWhole (F.held folder.old name.now) (F.held folder.new name.now) bytes.now }
    ensures gone { OnOk result
        (F.held folder.new part.now ≡ cleared (F.held folder.old part.now)) }
    ensures there { cleared (F.held folder.new part.now) ≡ cleared (F.held folder.old part.now) }
    ensures others { OnlyIn name.now part.now (F.held folder.old) (F.held folder.new) }
{
    folder.fill(file, part, bytes)?;
    folder.sync(file, part)?;
    folder.rename(part, name)
}
