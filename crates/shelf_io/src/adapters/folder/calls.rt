//! The calls on a folder of which a write is made.

ghost use Rattle.std.specs.Prelude.{◌≡◌, ◌≢◌, ◌⊎◌, List, ℕ, [], OnOk, OnErr};
ghost use Rattle.std.specs.Io.KnownBytes.{Appends};
ghost use Rattle.shelf_io.specs.Shelf.{Told, MayHold};
ghost use Rattle.shelf_io.specs.Folder.{cleared, Grows, Gives, OnlyAt, OnlyIn};

use std::io;
use std::io::Write;

/// A folder, as far as a write asks of it.
///
/// Nobody knows what a real folder holds, so what a name holds is told or not, as by a `Shelf`.
pub(crate) trait Folder {
    /// An open file.
    type File: Write + Drop;

    /// What the folder tells of a name.
    ghost held: { Self → List ℕ → Told };

    /// That the disk has all that the file under a name holds.
    ghost synced: { Self → List ℕ → Type 0 };

    /// That the file under a name could not be removed.
    ghost stays: { Self → List ℕ → Type 0 };

    /// Makes an empty file under a name that no file has, and opens it.
    fn make(&mut self, name: &str) -> io::Result<Self::File>
        ensures made { OnOk result (MayHold (held self.new name.now) []) }
        ensures free { OnOk result (held self.old name.now ≡ cleared (held self.new name.now)) }
        ensures others { OnlyAt name.now (held self.old) (held self.new) }
        ensures kept { OnErr result (held self.new ≡ held self.old) };

    /// Puts all the bytes behind what a file holds, which is the open one under this name.
    fn fill(&mut self, file: &mut Self::File, name: &str, bytes: &[u8]) -> io::Result<()>
        ensures filled { OnOk result
            (Grows (held self.old name.now) (held self.new name.now) bytes.now) }
        ensures appends { OnOk result
            (Appends (Self.File.contents file.old) (Self.File.contents file.new) bytes.now) }
        ensures there { cleared (held self.new name.now) ≡ cleared (held self.old name.now) }
        ensures others { OnlyAt name.now (held self.old) (held self.new) };

    /// Waits until the disk has what a file holds, which is the open one under this name.
    fn sync(&mut self, file: &Self::File, name: &str) -> io::Result<()>
        ensures synced { OnOk result (synced self.new name.now) }
        ensures held { held self.new ≡ held self.old };

    /// Gives the file under a name another name, in the place of what that name held.
    ///
    /// Where it fails, each name may be as it was or as it was to be.
    fn rename(&mut self, from: &str, to: &str) -> io::Result<()>
        requires synced { synced self.old from.now }
        requires apart { to.now ≢ from.now }
        ensures given { OnOk result (Gives from.now to.now (held self.old) (held self.new)) }
        ensures gone { OnOk result (held self.new from.now ≡ cleared (held self.old from.now)) }
        ensures whole { OnErr result ((held self.new to.now ≡ held self.old to.now)
            ⊎ Gives from.now to.now (held self.old) (held self.new)) }
        ensures there { cleared (held self.new from.now) ≡ cleared (held self.old from.now) }
        ensures others { OnlyIn to.now from.now (held self.old) (held self.new) };

    /// Removes the file under a name.
    fn remove(&mut self, name: &str) -> io::Result<()>
        ensures gone { OnOk result (held self.new name.now ≡ cleared (held self.old name.now)) }
        ensures stays { OnErr result (stays self.new name.now) }
        ensures others { OnlyAt name.now (held self.old) (held self.new) };
}
