//! All that is probably a mistake in a crontab, judged by what is around its entries.

ghost use Rattle.std.specs.Prelude.{IfOk, OnOk, ◌≡◌, ◌++◌, map};
ghost use Rattle.jiff.specs.Words.{plain_zone};
ghost use Rattle.cron_tab_lines.specs.Files.{file_lines};
ghost use Rattle.cron_tab_context.specs.Found.{IsFound, found_system, found_twin};

use crate::found::{ContextWarning, Found};
use crate::system::system_line;
use crate::times::push_all_times;
use cron_tab_comparing::twins::{Twin, list_twins};
use cron_tab_lines::{Crontab, Lines, NamedZone};
use jiff::Timestamp;
use jiff::tz::TimeZone;
use std::alloc::{AllocError, Global};

/// What is around a crontab's entries.
#[derive(Clone, Copy)]
pub struct Asked<'a> {
    /// Whether the crontab is read as a user's or as the system's.
    pub kind: Crontab,
    /// The path of the file.
    pub path: &'a str,
    /// The zones that `CRON_TZ` may name.
    pub names: &'a [NamedZone<'a>],
    /// The instant from which a year is looked at.
    pub start: Timestamp,
}

fn push_system(found: &mut Vec<Found>, line: Option<usize>) -> Result<(), AllocError>
    ensures { OnOk result (found.new.items ≡ found.old.items ++ found_system line) }
{
    if let Some(line) = line {
        found.push(Found {
            line,
            warning: ContextWarning::SystemCrontab,
        })?;
    }
    Ok(())
}

fn push_twins(found: &mut Vec<Found>, twins: &[Twin]) -> Result<(), AllocError>
    ensures { OnOk result (found.new.items ≡ found.old.items ++ map found_twin twins.now) }
{
    for twin in twins {
        found.push(Found {
            line: twin.line,
            warning: ContextWarning::Twin(twin.above),
        })?;
    }
    Ok(())
}

/// What is probably a mistake in a crontab, judged by what is around its entries: that it seems to be
/// the system's, what the clock does with its entries within a year, and which of them run the same
/// as one above. Entries fire in `zones[0]`, or in the zone that the last `CRON_TZ` above names.
pub fn list_found(
    alloc: Global,
    asked: &Asked<'_>,
    zones: &[TimeZone<'_>],
    file: &[u8],
) -> Result<Vec<Found>, AllocError>
    ensures { IfOk result (λ found. IsFound asked.now (map plain_zone zones.now)
        (file_lines asked.now.kind file.now) found.items) }
{
    let (kind, start) = (asked.kind, asked.start);
    let mut found = Vec::new(alloc);
    push_system(&mut found, system_line(kind, asked.path, file))?;
    let lines = Lines::of(kind, file);
    push_all_times(alloc, &mut found, lines, asked.names, zones, start)?;
    let twins = list_twins(alloc, kind, file)?;
    push_twins(&mut found, twins.as_slice())?;
    Ok(found)
}
