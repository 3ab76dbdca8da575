//! Two files in memory, a note and the draft beside it: what a running program sees of them, and
//! what a power cut leaves.

use std::alloc::{AllocError, Global};

/// One of the two files.
#[derive(Clone, Copy, PartialEq, Eq)]
pub(super) enum Name {
    Note,
    Draft,
}

/// A change of the files.
#[derive(Clone, Copy)]
pub(super) enum Act<'a> {
    Write(Name, &'a [u8]),
    Sync(Name),
    /// The draft takes the note's name.
    Rename,
    SyncFolder,
}

/// What a cut loses of what wasn't synced: names, and the second half of what was written.
#[derive(Clone, Copy, Debug)]
pub(super) struct Lost {
    pub(super) names: bool,
    pub(super) bytes: bool,
}

/// Nothing is lost.
pub(super) const WHOLE: Lost = Lost {
    names: false,
    bytes: false,
};

/// All that a cut may lose, in each combination.
pub(super) const LOST: [Lost; 4] = [
    WHOLE,
    Lost {
        names: false,
        bytes: true,
    },
    Lost {
        names: true,
        bytes: false,
    },
    Lost {
        names: true,
        bytes: true,
    },
];

// What was written to a file, whatever name that has now, and whether it was synced.
#[derive(Drop)]
struct Content {
    bytes: Vec<u8>,
    synced: bool,
}

// The index of each name's file in the contents of a `Disk`, or `None` if there is no such file.
#[derive(Clone, Copy)]
struct Names {
    note: Option<usize>,
    draft: Option<usize>,
}

impl Names {
    fn get(&self, name: Name) -> Option<usize> {
        match name {
            Name::Note => self.note,
            Name::Draft => self.draft,
        }
    }

    fn set(&mut self, name: Name, at: usize) {
        match name {
            Name::Note => self.note = Some(at),
            Name::Draft => self.draft = Some(at),
        }
    }
}

const NONE: Names = Names {
    note: None,
    draft: None,
};

/// The two files as a program sees them, and what a cut would leave.
#[derive(Drop)]
pub(super) struct Disk {
    alloc: Global,
    contents: Vec<Content>,
    names: Names,
    // the names when the folder was synced last
    synced: Names,
}

impl Disk {
    /// Returns a disk without files.
    pub(super) fn new(alloc: Global) -> Disk {
        Disk {
            alloc,
            contents: Vec::new(alloc),
            names: NONE,
            synced: NONE,
        }
    }

    // Writes a file anew, in place if it is there already.
    fn write(&mut self, name: Name, bytes: &[u8]) -> Result<(), AllocError> {
        let content = Content {
            bytes: Vec::from_slice(self.alloc, bytes)?,
            synced: false,
        };
        if let Some(at) = self.names.get(name) {
            if let Some(old) = self.contents.get_mut(at) {
                *old = content;
            }
            return Ok(());
        }
        self.names.set(name, self.contents.len());
        self.contents.push(content)?;
        Ok(())
    }

    fn sync(&mut self, name: Name) {
        if let Some(at) = self.names.get(name) {
            if let Some(content) = self.contents.get_mut(at) {
                content.synced = true;
            }
        }
    }

    /// Makes a change.
    pub(super) fn make(&mut self, act: Act<'_>) -> Result<(), AllocError> {
        match act {
            Act::Write(name, bytes) => self.write(name, bytes)?,
            Act::Sync(name) => self.sync(name),
            Act::Rename => {
                self.names = Names {
                    note: self.names.draft,
                    draft: None,
                }
            }
            Act::SyncFolder => self.synced = self.names,
        }
        Ok(())
    }

    // A file's bytes after a cut, or `None` if it isn't there then.
    fn left(&self, name: Name, lost: Lost) -> Option<&[u8]> {
        let names = if lost.names {
            &self.synced
        } else {
            &self.names
        };
        let content = self.contents.get(names.get(name)?)?;
        let bytes = content.bytes.as_slice();
        if lost.bytes && !content.synced {
            Some(&bytes[..bytes.len() / 2])
        } else {
            Some(bytes)
        }
    }

    /// The note's bytes after a cut, or `None` if it isn't there then.
    pub(super) fn note(&self, lost: Lost) -> Option<&[u8]> {
        self.left(Name::Note, lost)
    }

    /// The files after a cut, all of them synced.
    pub(super) fn after(&self, lost: Lost) -> Result<Disk, AllocError> {
        let mut disk = Disk::new(self.alloc);
        for name in [Name::Note, Name::Draft] {
            if let Some(bytes) = self.left(name, lost) {
                disk.make(Act::Write(name, bytes))?;
                disk.make(Act::Sync(name))?;
            }
        }
        disk.make(Act::SyncFolder)?;
        Ok(disk)
    }
}
