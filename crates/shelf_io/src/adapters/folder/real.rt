//! The real folder.

ghost use Rattle.std.specs.Prelude.{⊤};
ghost use Rattle.shelf_io.specs.Shelf.{Untold};

use crate::adapters::folder::calls::Folder;
use std::fs::{File, Files, OpenFile};
use std::io;
use std::io::Write;

/// The folder where the program runs, which tells nothing.
#[derive(Drop)]
pub(crate) struct RealFolder<R> {
    pub(crate) rt: R,
}

impl<R: Files> Folder for RealFolder<R> {
    type File = R::File;

    ghost held = { λ _ _. Untold };

    ghost synced = { λ _ _. ⊤ };

    ghost stays = { λ _ _. ⊤ };

    fn make(&mut self, name: &str) -> io::Result<R::File> {
        File::create_new(&self.rt, name)
    }

    fn fill(&mut self, file: &mut R::File, _name: &str, bytes: &[u8]) -> io::Result<()> {
        file.write_all(bytes)
    }

    fn sync(&mut self, file: &R::File, _name: &str) -> io::Result<()> {
        file.sync_all()
    }

    fn rename(&mut self, from: &str, to: &str) -> io::Result<()> {
        self.rt.rename(from, to)
    }

    fn remove(&mut self, name: &str) -> io::Result<()> {
        self.rt.remove_file(name)
    }
}
