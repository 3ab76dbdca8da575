//! The files of a run, which are checked for changes while their entries run.

use crate::watch::Watch;
use cron_replies::status::Status;
use cron_tab_lines::Crontab;
use cron_tab_running::{Changing, Crontabs, NamedOpen, Tab, ZoneOpener};
use crontool_machine::machine::{Surroundings, no_memory, read_all, read_file, say_unread};
use crontool_machine::zones::TabZones;
use std::alloc::{AllocError, Global};

/// The files of a run, by their names, with what was last read from each.
#[derive(Drop)]
pub(crate) struct Files<'r> {
    rt: &'r HostRuntime,
    names: &'r [&'r str],
    /// What was last read from each file.
    read: Vec<Vec<u8>>,
    watch: Watch<'r>,
}

impl<'r> Files<'r> {
    /// The files `names`, before they are read for the first time.
    pub(crate) fn new(rt: &'r HostRuntime, names: &'r [&'r str]) -> Files<'r> {
        Files {
            rt,
            names,
            read: Vec::new(rt.alloc()),
            watch: Watch::nothing(rt.alloc(), rt),
        }
    }

    // Records the state of the files, so that later changes are noticed.
    fn look(&mut self) -> Result<(), Status> {
        match Watch::of(self.rt.alloc(), self.rt, self.names) {
            Ok(watch) => {
                self.watch = watch;
                Ok(())
            }
            Err(_) => Err(no_memory(self.rt)),
        }
    }
}

// Reads the files again, except standard input. If one can't be read, the reason is written, and
// what was read from it before is kept.
fn read_again(rt: &HostRuntime, names: &[&str], read: &mut [Vec<u8>]) -> Result<(), Status> {
    for (name, bytes) in names.iter().zip(read.iter_mut()) {
        if *name == "-" {
            continue;
        }
        match read_file(rt, *name) {
            Ok(found) => *bytes = found,
            Err(error) => {
                let status = say_unread(rt, *name, &error);
                if status == Status::WriteFailed {
                    return Err(status);
                }
            }
        }
    }
    Ok(())
}

fn tabs_of(alloc: Global, names: &[&str], read: &[Vec<u8>]) -> Result<Vec<Tab>, AllocError> {
    let mut tabs = Vec::new(alloc);
    for (name, bytes) in names.iter().zip(read.iter()) {
        tabs.push(Tab {
            name: String::from_str(alloc, *name)?,
            bytes: Vec::from_slice(alloc, bytes.as_slice())?,
        })?;
    }
    Ok(tabs)
}

impl Changing for Files<'_> {
    fn have_changed(&mut self) -> bool {
        self.watch.have_changed()
    }
}

impl Crontabs for Files<'_> {
    type Error = Status;

    fn read(&mut self) -> Result<Vec<Tab>, Status> {
        self.look()?;
        if self.read.is_empty() {
            self.read = read_all(self.rt, self.names)?;
        } else {
            read_again(self.rt, self.names, self.read.as_mut_slice())?;
        }
        match tabs_of(self.rt.alloc(), self.names, self.read.as_slice()) {
            Ok(tabs) => Ok(tabs),
            Err(_) => Err(no_memory(self.rt)),
        }
    }
}

/// Opens the zones that `CRON_TZ` names in files.
#[derive(Clone, Copy)]
pub(crate) struct Opener<'r> {
    pub(crate) rt: &'r HostRuntime,
    pub(crate) around: &'r Surroundings,
}

impl ZoneOpener for Opener<'_> {
    fn open<'x>(
        &'x self,
        alloc: Global,
        kind: Crontab,
        tabs: &'x [Tab],
    ) -> Result<Vec<NamedOpen<'x>>, AllocError> {
        let mut opened = TabZones::new(alloc);
        for tab in tabs {
            opened.try_open(self.rt, kind, tab.bytes.as_slice(), self.around)?;
        }
        Ok(opened.into_opened())
    }
}
