//! A store in memory that counts its calls. One of them fails, or is the last before a power cut.

use super::disk::{Act, Disk, Name};
use cron_notes::store::Store;
use cron_zones::files::ZoneFiles;
use std::alloc::{AllocError, Global};
use std::cell::Cell;
use std::io::{self, ErrorKind};

/// The path of the note.
pub(super) const PATH: &str = "room/state";

/// The trouble of a run, and the number of the call where it happens, counted from 0.
#[derive(Clone, Copy, Debug, PartialEq, Eq)]
pub(super) enum Trouble {
    Nothing,
    /// The call fails, and a write leaves half of its bytes.
    Fails(usize),
    /// The call is made, and a power cut ends the program after it.
    Cut(usize),
}

/// The error number of the system that the failing call with this number returns.
pub(super) fn code_of(call: usize) -> i32 {
    (call % 1000) as i32 + 1000
}

/// A store in memory, with its trouble. `cut` is set once a power cut has come.
#[derive(Drop)]
pub(super) struct Shelf<'a> {
    pub(super) disk: Disk,
    pub(super) calls: usize,
    trouble: Trouble,
    cut: &'a Cell<bool>,
}

impl<'a> Shelf<'a> {
    /// Returns a store with these files.
    pub(super) fn new(disk: Disk, trouble: Trouble, cut: &'a Cell<bool>) -> Shelf<'a> {
        Shelf {
            disk,
            calls: 0,
            trouble,
            cut,
        }
    }

    fn make(&mut self, act: Act<'_>) -> io::Result<()> {
        match self.disk.make(act) {
            Ok(()) => Ok(()),
            Err(AllocError) => Err(io::Error::from(ErrorKind::OutOfMemory)),
        }
    }

    fn call(&mut self, act: Act<'_>) -> io::Result<()> {
        let call = self.calls;
        self.calls = call.saturating_add(1);
        if self.cut.get() {
            return Err(io::Error::from(ErrorKind::BrokenPipe));
        }
        if self.trouble == Trouble::Fails(call) {
            if let Act::Write(name, bytes) = act {
                self.make(Act::Write(name, &bytes[..bytes.len() / 2]))?;
            }
            return Err(io::Error::from_raw_os_error(code_of(call)));
        }
        self.make(act)?;
        self.cut.set(self.trouble == Trouble::Cut(call));
        Ok(())
    }
}

fn name_of(path: &str) -> io::Result<Name> {
    match path {
        "room/state" => Ok(Name::Note),
        "room/state.new" => Ok(Name::Draft),
        _ => Err(io::Error::from(ErrorKind::NotFound)),
    }
}

impl ZoneFiles for Shelf<'_> {
    fn read(&mut self, _alloc: Global, _path: &str) -> io::Result<Vec<u8>> {
        Err(io::Error::from(ErrorKind::Unsupported))
    }
}

impl Store for Shelf<'_> {
    fn write(&mut self, path: &str, bytes: &[u8]) -> io::Result<()> {
        self.call(Act::Write(name_of(path)?, bytes))
    }

    fn sync(&mut self, path: &str) -> io::Result<()> {
        self.call(Act::Sync(name_of(path)?))
    }

    fn rename(&mut self, from: &str, to: &str) -> io::Result<()> {
        match (from, to) {
            ("room/state.new", "room/state") => self.call(Act::Rename),
            _ => Err(io::Error::from(ErrorKind::NotFound)),
        }
    }

    fn sync_folder(&mut self, folder: &str) -> io::Result<()> {
        match folder {
            "room/" => self.call(Act::SyncFolder),
            _ => Err(io::Error::from(ErrorKind::NotFound)),
        }
    }
}
