//! The zones that `CRON_TZ` names in crontabs.

use crate::machine::{Surroundings, no_memory};
use cron_replies::status::Status;
use cron_tab_agenda::TabFile;
use cron_tab_lines::{Crontab, Line, NamedZone, read_line};
use cron_tab_running::NamedOpen;
use cron_zones::error::ZoneError;
use cron_zones::machine::MachineFiles;
use cron_zones::open::{Places, open};
use jiff::tz::TimeZone;
use std::alloc::{AllocError, Global};

// Whether a line may set `CRON_TZ`, judged by its first byte that isn't blank. Other lines aren't
// read.
fn begins_as_name(line: &[u8]) -> bool {
    for byte in line {
        if *byte != b' ' && *byte != b'\t' {
            return matches!(*byte, b'C' | b'"' | b'\'');
        }
    }
    false
}

/// The names of zones, and the zones by number.
#[derive(Drop)]
pub struct Numbered<'n, 'z> {
    pub names: Vec<NamedZone<'n>>,
    pub zones: Vec<TimeZone<'z>>,
}

/// The zones that `CRON_TZ` names in crontabs, each opened once.
#[derive(Drop)]
pub struct TabZones<'a> {
    opened: Vec<NamedOpen<'a>>,
}

impl<'a> TabZones<'a> {
    /// Returns a list of open zones that has none yet.
    pub fn new(alloc: Global) -> TabZones<'a> {
        TabZones {
            opened: Vec::new(alloc),
        }
    }

    /// Opens the zones that crontabs name, as `open` does.
    pub fn of(
        rt: &HostRuntime,
        files: &[TabFile<'a>],
        around: &'a Surroundings,
    ) -> Result<TabZones<'a>, Status> {
        let mut zones = TabZones::new(rt.alloc());
        for file in files {
            zones.open(rt, file.kind, file.bytes, around)?;
        }
        Ok(zones)
    }

    fn has(&self, name: &[u8]) -> bool {
        self.opened.iter().any(|opened| opened.name == name)
    }

    // Opens the zone `name`, read as a value of TZ. A name is skipped if it is empty, already open,
    // or no zone.
    fn open_one(
        &mut self,
        rt: &HostRuntime,
        name: &'a [u8],
        around: &'a Surroundings,
    ) -> Result<(), AllocError> {
        let Ok(text) = str::from_utf8(name) else {
            return Ok(());
        };
        if name.is_empty() || self.has(name) {
            return Ok(());
        }
        let places = Places {
            tz: Some(text),
            ..around.places()
        };
        match open(rt.alloc(), "local", &places, &mut MachineFiles(rt)) {
            Ok(zone) => {
                self.opened.push(NamedOpen { name, zone })?;
                Ok(())
            }
            Err(ZoneError::OutOfMemory) => Err(AllocError),
            Err(_) => Ok(()),
        }
    }

    /// Opens the zones that a crontab names, without any message. A name of no zone is skipped.
    pub fn try_open(
        &mut self,
        rt: &HostRuntime,
        kind: Crontab,
        file: &'a [u8],
        around: &'a Surroundings,
    ) -> Result<(), AllocError> {
        for line in file.split(|byte| *byte == b'\n') {
            if begins_as_name(line)
                && let Ok(Line::Zone(name)) = read_line(kind, line)
            {
                self.open_one(rt, name, around)?;
            }
        }
        Ok(())
    }

    /// Opens the zones that a crontab names. A name of no zone is skipped. If memory runs out, that
    /// is written, and `Err` has the status of the subcommand.
    pub fn open(
        &mut self,
        rt: &HostRuntime,
        kind: Crontab,
        file: &'a [u8],
        around: &'a Surroundings,
    ) -> Result<(), Status> {
        match self.try_open(rt, kind, file, around) {
            Ok(()) => Ok(()),
            Err(_) => Err(no_memory(rt)),
        }
    }

    /// The open zones.
    pub fn into_opened(self) -> Vec<NamedOpen<'a>> {
        let TabZones { opened } = self;
        opened
    }

    /// The names of the zones. An empty name means zone 0, as in cronie. The first open zone is
    /// zone 1, and so on.
    pub fn names(&self, alloc: Global) -> Result<Vec<NamedZone<'a>>, AllocError> {
        let mut names = Vec::new(alloc);
        names.push(NamedZone { name: b"", zone: 0 })?;
        for opened in &self.opened {
            let zone = names.len();
            names.push(NamedZone {
                name: opened.name,
                zone,
            })?;
        }
        Ok(names)
    }

    /// The zones by number: `first` is zone 0, and the open zones follow.
    pub fn behind<'z>(
        &'z self,
        alloc: Global,
        first: TimeZone<'z>,
    ) -> Result<Vec<TimeZone<'z>>, AllocError> {
        let mut zones = Vec::new(alloc);
        zones.push(first)?;
        for opened in &self.opened {
            zones.push(opened.zone.time_zone())?;
        }
        Ok(zones)
    }

    /// The names of the zones, and the zones by number, as `names` and `behind` have them. If memory
    /// runs out, that is written, and `Err` has the status of the subcommand.
    pub fn numbered<'z>(
        &'z self,
        rt: &HostRuntime,
        first: TimeZone<'z>,
    ) -> Result<Numbered<'a, 'z>, Status> {
        match (self.names(rt.alloc()), self.behind(rt.alloc(), first)) {
            (Ok(names), Ok(zones)) => Ok(Numbered { names, zones }),
            _ => Err(no_memory(rt)),
        }
    }
}
