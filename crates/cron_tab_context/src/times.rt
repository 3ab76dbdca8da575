//! What the clock of a zone does with entries within a year.

ghost use Rattle.std.specs.Prelude.{◌≡◌, ◌↔◌, ◌++◌, ◌∷◌, ℕ, List, IsTrue, OnOk, Some, map};
ghost use Rattle.jiff.specs.Words.{plain_zone};
ghost use Rattle.cron_tab_lines.specs.Views.{file_line_view};
ghost use Rattle.cron_tab_agenda.specs.Tabs.{schedules_in, set_of};
ghost use Rattle.cron_tab_context.specs.Inner.{Appends};
ghost use Rattle.cron_tab_context.specs.Times.{AreFires, AreTimes, AreTimesIn, AreTimesOf, HasNoFire, IsYearAfter, changed, zone_at};

use crate::found::{ContextWarning, Found};
use cron_fires::{ClockChanges, Dues, Fires};
use cron_tab_agenda::{ChangedDay, Clock, TabEntry, changes_of, list_changes};
use cron_tab_lines::{FileLine, Lines, NamedZone, zone_below};
use jiff::Timestamp;
use jiff::tz::TimeZone;
use std::alloc::{AllocError, Global};

/// The days of the longest year.
const DAYS: u32 = 366;

/// The nanoseconds of 366 days.
const YEAR: i128 = 31_622_400_000_000_000;

// The instant 366 days after `start`, or the last instant of all if that is earlier.
fn year_after(start: Timestamp) -> Timestamp
    ensures { IsYearAfter start.nanosecond result.nanosecond }
{
    match Timestamp::from_nanosecond(start.as_nanosecond() + YEAR) {
        Ok(end) => end,
        Err(_) => Timestamp::MAX,
    }
}

// Returns true if an entry has no fire after `start` and at or before `end`.
fn has_no_fire(
    entry: &TabEntry,
    changes: ClockChanges,
    zone: &TimeZone<'_>,
    start: Timestamp,
    end: Timestamp,
) -> bool
    ensures { IsTrue result ↔ HasNoFire (set_of entry.now) (plain_zone zone.now) changes
        start.nanosecond end.nanosecond }
{
    match changes {
        ClockChanges::AsShown => Fires::between(entry, start, end, zone).next().is_none(),
        ClockChanges::Once => Dues::between(entry, start, end, zone).next().is_none(),
    }
}

// Appends that a line's entry has no fire within a year, if so.
fn push_fires(
    found: &mut Vec<Found>,
    line: &FileLine<'_>,
    zone: &TimeZone<'_>,
    start: Timestamp,
) -> Result<(), AllocError>
    ensures { OnOk result (Appends
        (AreFires (file_line_view line.now) (schedules_in (file_line_view line.now).outcome)
        (plain_zone zone.now) start.nanosecond) found.old.items found.new.items) }
{
    let Some(entry) = TabEntry::of(line) else {
        return Ok(());
    };
    let changes = changes_of(Clock::Own, line.bytes);
    if has_no_fire(&entry, changes, zone, start, year_after(start)) {
        found.push(Found {
            line: line.number,
            warning: ContextWarning::NoFire,
        })?;
    }
    Ok(())
}

// Appends the changed days of an entry in the line with this number.
fn push_days(found: &mut Vec<Found>, line: usize, days: &[ChangedDay]) -> Result<(), AllocError>
    ensures { OnOk result (found.new.items ≡ found.old.items
        ++ map (changed line) days.now) }
{
    for day in days {
        found.push(Found {
            line,
            warning: ContextWarning::ChangedDay(*day),
        })?;
    }
    Ok(())
}

// Appends what the clock of a zone does with a line's entry.
fn push_times(
    alloc: Global,
    found: &mut Vec<Found>,
    line: &FileLine<'_>,
    zone: &TimeZone<'_>,
    start: Timestamp,
) -> Result<(), AllocError>
    ensures { OnOk result (Appends
        (AreTimesOf (file_line_view line.now) (plain_zone zone.now) start.nanosecond)
        found.old.items found.new.items) }
{
    let mut days = Vec::new(alloc);
    list_changes(&mut days, line, zone, start, DAYS)?;
    push_days(found, line.number, days.as_slice())?;
    push_fires(found, line, zone, start)
}

// Appends what the clock does with a line's entry in `zones[here]`, or nothing if there is no such
// zone.
fn push_times_in(
    alloc: Global,
    found: &mut Vec<Found>,
    line: &FileLine<'_>,
    zones: &[TimeZone<'_>],
    here: Option<usize>,
    start: Timestamp,
) -> Result<(), AllocError>
    ensures { OnOk result (Appends
        (AreTimesIn (file_line_view line.now) (zone_at (map plain_zone zones.now) here)
        start.nanosecond) found.old.items found.new.items) }
{
    let Some(number) = here else {
        return Ok(());
    };
    match zones.get(number) {
        Some(zone) => push_times(alloc, found, line, zone, start),
        None => Ok(()),
    }
}

/// Appends what the clock does with the entries of lines within a year from `start`, each in
/// `zones[0]`, or in the zone that the last `CRON_TZ` above it names.
pub(crate) fn push_all_times(
    alloc: Global,
    found: &mut Vec<Found>,
    lines: Lines<'_>,
    names: &[NamedZone<'_>],
    zones: &[TimeZone<'_>],
    start: Timestamp,
) -> Result<(), AllocError>
    ensures { OnOk result (Appends
        (AreTimes (map plain_zone zones.now) names.now start.nanosecond (Some 0) lines.entry)
        found.old.items found.new.items) }
{
    let mut here = Some(0);
    for line in lines {
        push_times_in(alloc, found, &line, zones, here, start)?;
        here = zone_below(names, here, &line);
    }
    Ok(())
}
