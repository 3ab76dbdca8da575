//! The files of the machine, to write notes to.

use crate::store::Store;
use cron_zones::files::ZoneFiles;
use cron_zones::machine::MachineFiles;
use std::alloc::Global;
use std::fs::{self, OpenFile};
use std::io;
use std::rt::Files;

/// The files of the machine. They are read as `MachineFiles` reads them: a file that is longer than
/// 1 MiB, or that is no regular file, isn't read.
#[derive_where(Clone, Copy)]
pub struct MachineStore<'a, R>(pub &'a R);

impl<R: Files> ZoneFiles for MachineStore<'_, R> {
    fn read(&mut self, alloc: Global, path: &str) -> io::Result<Vec<u8>> {
        MachineFiles(self.0).read(alloc, path)
    }
}

impl<R: Files> Store for MachineStore<'_, R> {
    fn write(&mut self, path: &str, bytes: &[u8]) -> io::Result<()> {
        fs::write(self.0, path, bytes)
    }

    fn sync(&mut self, path: &str) -> io::Result<()> {
        fs::open(self.0, path)?.sync_all()
    }

    fn rename(&mut self, from: &str, to: &str) -> io::Result<()> {
        fs::rename(self.0, from, to)
    }

    fn sync_folder(&mut self, folder: &str) -> io::Result<()> {
        fs::open(self.0, folder)?.sync_all()
    }
}
