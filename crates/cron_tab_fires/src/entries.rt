//! The entries of crontabs with their fires between two instants.
ghost use Rattle.std.specs.Prelude.{◌≡◌, ◌++◌, IfErr, OnOk, Some, map};
ghost use Rattle.jiff.specs.Words.{plain_zone};
ghost use Rattle.cron_tab_lines.specs.Views.{bytes_view, file_line_view};
ghost use Rattle.cron_tab_fires.specs.Errors.{IsFiresError, IsLineError};
ghost use Rattle.cron_tab_fires.specs.Entries.{entries_in, entry_at, entry_in, given, view};

use crate::error::FiresError;
use crate::fires::fires_between;
use cron_agenda::EntryFire;
use cron_crontab::Expression;
use cron_tab_agenda::{Clock, changes_of};
use cron_tab_lines::{FileLine, Line, Lines, NamedZone, zone_below};
use jiff::Timestamp;
use jiff::tz::TimeZone;
use std::alloc::Global;

/// An entry of a crontab, with its fires.
#[derive(Drop)]
pub struct TabFires<'a> {
    /// The name of the entry's file, if several files are read.
    pub file: Option<&'a str>,
    /// The number of the entry's line in its file, from 1 on.
    pub line: usize,
    /// The entry's fires, ordered by instant.
    pub fires: Vec<EntryFire>,
}

/// Which fires of entries are listed: those after `start` and at or before `end`.
#[derive(Clone, Copy)]
pub struct Asked<'a> {
    /// The rule of entries when the clock changes.
    pub clock: Clock,
    /// The instant after which the listed fires come.
    pub start: Timestamp,
    /// The last instant of the listed fires; a fire at it is listed.
    pub end: Timestamp,
    /// The zones that `CRON_TZ` may name.
    pub names: &'a [NamedZone<'a>],
}

// Appends the entry of `line` in `zones[number]` to `entries`. Nothing if the line is no entry, or
// one that no clock fires.
fn push_entry<'a>(
    alloc: Global,
    entries: &mut Vec<TabFires<'a>>,
    file: Option<&'a str>,
    line: &FileLine<'_>,
    asked: &Asked<'_>,
    zones: &[TimeZone<'_>],
    number: usize,
) -> Result<(), FiresError>
    ensures ok { OnOk result (map view entries.new.items ≡ map view entries.old.items
        ++ entry_at (given (map plain_zone zones.now) asked.now) (bytes_view file.entry)
        (file_line_view line.now) number) }
    ensures err { IfErr result (IsLineError (given (map plain_zone zones.now) asked.now)
        (Some number) (file_line_view line.now)) }
{
    let Ok(Line::Entry(entry)) = &line.read else {
        return Ok(());
    };
    let Expression::Fires(schedules) = &entry.expression else {
        return Ok(());
    };
    let Some(zone) = zones.get(number) else {
        return Err(FiresError::NoZone(line.number));
    };
    let (start, end) = (asked.start, asked.end);
    let changes = changes_of(asked.clock, line.bytes);
    let schedules = schedules.as_slice();
    let Ok(fires) = fires_between(alloc, schedules, changes, start, end, zone) else {
        return Err(FiresError::OutOfMemory);
    };
    let line = line.number;
    let Ok(()) = entries.push(TabFires { file, line, fires }) else {
        return Err(FiresError::OutOfMemory);
    };
    Ok(())
}

// Appends the entry of `line` to `entries`, in the zone with the number `here`. If `here` is
// `None`, the entry has no zone and is left out.
fn push_line<'a>(
    alloc: Global,
    entries: &mut Vec<TabFires<'a>>,
    file: Option<&'a str>,
    line: &FileLine<'_>,
    asked: &Asked<'_>,
    zones: &[TimeZone<'_>],
    here: Option<usize>,
) -> Result<(), FiresError>
    ensures ok { OnOk result (map view entries.new.items ≡ map view entries.old.items
        ++ entry_in (given (map plain_zone zones.now) asked.now) (bytes_view file.entry)
        (file_line_view line.now) here) }
    ensures err { IfErr result (IsLineError (given (map plain_zone zones.now) asked.now)
        here (file_line_view line.now)) }
{
    match here {
        Some(number) => push_entry(alloc, entries, file, line, asked, zones, number),
        None => Ok(()),
    }
}

/// Appends the entries of a file's lines to `entries`, each with its fires. An entry fires in
/// `zones[0]`, or, after a line that sets `CRON_TZ`, in the zone that it names. If that isn't in
/// `asked.names`, the entries after it are left out. Refused lines and entries that no clock fires
/// are left out too. On an error the entries of the lines before it stay.
pub fn add_fires<'a>(
    alloc: Global,
    entries: &mut Vec<TabFires<'a>>,
    file: Option<&'a str>,
    lines: Lines<'_>,
    asked: &Asked<'_>,
    zones: &[TimeZone<'_>],
) -> Result<(), FiresError>
    ensures ok { OnOk result (map view entries.new.items ≡ map view entries.old.items
        ++ entries_in (given (map plain_zone zones.now) asked.now) (bytes_view file.entry)
        (Some 0) lines.entry) }
    ensures err { IfErr result (IsFiresError (given (map plain_zone zones.now) asked.now)
        (Some 0) lines.entry) }
{
    let mut here = Some(0);
    for line in lines {
        push_line(alloc, entries, file, &line, asked, zones, here)?;
        here = zone_below(asked.names, here, &line);
    }
    Ok(())
}
