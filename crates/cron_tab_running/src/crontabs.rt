//! Crontabs that can be read again, and the zones that they name.

ghost use Rattle.std.specs.Prelude.{◌≡◌, Bool, IfOk, Result, map};
ghost use Rattle.std.specs.declared.alloc.Global.{Global};
ghost use Rattle.std.specs.declared.vec.Vec.{Vec};
ghost use Rattle.cron_tab_running.specs.Looks.{AreFound};
ghost use Rattle.cron_tab_running.specs.declared.crontabs.Tab.{Tab};

use crate::orders::TabFile;
use crate::run_clock::Changing;
use cron_tab_lines::{Crontab, NamedZone};
use cron_zones::zone::Zone;
use jiff::tz::TimeZone;
use std::alloc::{AllocError, Global};

/// A crontab that was read.
#[derive(Drop)]
pub struct Tab {
    /// The crontab's name in messages.
    pub name: String,
    pub bytes: Vec<u8>,
}

/// Crontabs that are read again when they change.
pub trait Crontabs: Changing {
    /// Why they can't be read.
    type Error;

    // one reading: the files before it, what was found, and the files after it
    ghost finds: { Self → Result (Vec Tab Global) Self.Error → Self
        → Type 0 } = { λ _ _ _. Unit {0} };

    /// Reads the crontabs. `have_changed` then returns whether they have changed since.
    fn read(&mut self) -> Result<Vec<Tab>, Self::Error>
        ensures { finds self.old result self.new };
}

/// A zone, under the name that `CRON_TZ` gives it.
#[derive(Drop)]
pub struct NamedOpen<'a> {
    pub name: &'a [u8],
    pub zone: Zone<'a>,
}

/// Opens the zones that crontabs name.
pub trait ZoneOpener {
    /// Opens each zone that `CRON_TZ` names in `tabs`, once. A name of no zone is skipped.
    fn open<'x>(
        &'x self,
        alloc: Global,
        kind: Crontab,
        tabs: &'x [Tab],
    ) -> Result<Vec<NamedOpen<'x>>, AllocError>;
}

/// The names of zones: the first of `opened` has the number 1. An empty text names zone 0, as in
/// cronie.
pub(crate) fn names_of<'a>(
    alloc: Global,
    opened: &[NamedOpen<'a>],
) -> Result<Vec<NamedZone<'a>>, AllocError> {
    let mut names = Vec::new(alloc);
    names.push(NamedZone { name: b"", zone: 0 })?;
    for open in opened {
        let zone = names.len();
        names.push(NamedZone {
            name: open.name,
            zone,
        })?;
    }
    Ok(names)
}

/// The zone `first`, which has the number 0, followed by the opened zones.
pub(crate) fn zones_of<'x>(
    alloc: Global,
    first: TimeZone<'x>,
    opened: &'x [NamedOpen<'_>],
) -> Result<Vec<TimeZone<'x>>, AllocError> {
    let mut zones = Vec::new(alloc);
    zones.push(first)?;
    for open in opened {
        zones.push(open.zone.time_zone())?;
    }
    Ok(zones)
}

/// The crontabs as `TabFile`s, the form that a run takes, which borrow names and bytes.
pub(crate) fn files_of<'x>(alloc: Global, tabs: &'x [Tab]) -> Result<Vec<TabFile<'x>>, AllocError>
    ensures { IfOk result (λ files. AreFound tabs.now files.items) }
{
    let mut files = Vec::new(alloc);
    for tab in tabs {
        files.push(TabFile {
            name: tab.name.as_str(),
            bytes: tab.bytes.as_slice(),
        })?;
    }
    Ok(files)
}
