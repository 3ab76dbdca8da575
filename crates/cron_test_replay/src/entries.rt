//! The schedules and zones that the rows of agendas name.

use anyhow::Result;
use cron_test_rows::{Row, sets_of, zone_file, zone_named};
use cron_units::fields::ScheduleFields;
use jiff::tz::{TimeZone, Tzif};
use std::alloc::Global;

/// The schedules of each step. Their expressions follow the first `: ` of the step; a step without
/// one has no schedules.
pub(crate) fn tables_of(alloc: Global, steps: &str) -> Result<Vec<Vec<ScheduleFields>>> {
    let mut tables = Vec::new(alloc);
    for step in steps.split(" ; ") {
        tables.push(match step.split_once(": ") {
            Some((_, expressions)) => sets_of(alloc, expressions, " & ")?,
            None => Vec::new(alloc),
        })?;
    }
    Ok(tables)
}

/// The file of each zone in `names`, or `None` if the zone isn't read from a file.
pub(crate) fn files_of(row: &Row<'_>, names: &str) -> Result<Vec<Option<Tzif>>> {
    let mut files = Vec::new(row.alloc());
    for name in names.split(" and ") {
        files.push(zone_file(row, name)?)?;
    }
    Ok(files)
}

/// The zones in `names`, which are read from `files` where they have one.
pub(crate) fn zones_of<'x>(
    alloc: Global,
    names: &str,
    files: &'x [Option<Tzif>],
) -> Result<Vec<TimeZone<'x>>> {
    let mut zones = Vec::new(alloc);
    for (name, file) in names.split(" and ").zip(files) {
        zones.push(zone_named(name, file)?)?;
    }
    Ok(zones)
}
