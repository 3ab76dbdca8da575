//! Files that are checked for changes while their entries run.

use cron_tab_running::Changing;
use std::alloc::{AllocError, Global};
use std::fs;
use std::os::unix::fs::MetadataExt;

/// What distinguishes one state of a file from another: its device and inode, its size and its
/// times.
#[derive(Clone, Copy, PartialEq, Eq)]
struct Trace {
    device: u64,
    inode: u64,
    size: u64,
    modified: (i64, i64),
    changed: (i64, i64),
}

// The trace of a file. `None` for standard input, or if the file's metadata can't be read.
fn trace_of(rt: &HostRuntime, name: &str) -> Option<Trace> {
    if name == "-" {
        return None;
    }
    let found = fs::metadata(rt, name).ok()?;
    Some(Trace {
        device: found.dev(),
        inode: found.ino(),
        size: found.size(),
        modified: (found.mtime(), found.mtime_nsec()),
        changed: (found.ctime(), found.ctime_nsec()),
    })
}

/// A file with its trace when it was last checked.
#[derive(Drop)]
struct Seen {
    name: String,
    trace: Option<Trace>,
}

/// Files with their traces when they were last checked.
#[derive(Drop)]
pub(crate) struct Watch<'r> {
    rt: &'r HostRuntime,
    seen: Vec<Seen>,
}

impl<'r> Watch<'r> {
    /// Returns a watch over no files.
    pub(crate) fn nothing(alloc: Global, rt: &'r HostRuntime) -> Watch<'r> {
        Watch {
            rt,
            seen: Vec::new(alloc),
        }
    }

    /// Returns a watch over the files `names`, with their traces of now.
    pub(crate) fn of(
        alloc: Global,
        rt: &'r HostRuntime,
        names: &[&str],
    ) -> Result<Watch<'r>, AllocError> {
        let mut seen = Vec::new(alloc);
        for name in names {
            let trace = trace_of(rt, *name);
            let name = String::from_str(alloc, *name)?;
            seen.push(Seen { name, trace })?;
        }
        Ok(Watch { rt, seen })
    }
}

impl Changing for Watch<'_> {
    fn have_changed(&mut self) -> bool {
        let rt = self.rt;
        for seen in &self.seen {
            if trace_of(rt, seen.name.as_str()) != seen.trace {
                return true;
            }
        }
        false
    }
}
