//! The fires of several schedules as one between two instants, by either rule at clock changes.
ghost use Rattle.std.specs.Prelude.{◌≡◌, IfOk, map};
ghost use Rattle.jiff.specs.Words.{plain_zone};
ghost use Rattle.cron_unions.specs.Unions.{any_of};
ghost use Rattle.cron_tab_fires.specs.Fires.{dues_between, fires_between, shown_between};

use cron_agenda::EntryFire;
use cron_fires::{ClockChanges, Dues, Fires, Union};
use cron_units::fields::ScheduleFields;
use jiff::Timestamp;
use jiff::tz::TimeZone;
use std::alloc::{AllocError, Global};

// The fires of the schedules after `start` and at or before `end`, one for each time that the clock
// shows a match.
fn shown_between(
    alloc: Global,
    schedules: &[ScheduleFields],
    start: Timestamp,
    end: Timestamp,
    zone: &TimeZone<'_>,
) -> Result<Vec<EntryFire>, AllocError>
    ensures { IfOk result (λ fires. fires.items
        ≡ shown_between (any_of schedules.now) (plain_zone zone.now) start.nanosecond end.nanosecond) }
{
    let mut fires = Vec::new(alloc);
    let table = Union { schedules };
    for moment in Fires::between(&table, start, end, zone) {
        fires.push(EntryFire::AsShown(moment))?;
    }
    Ok(fires)
}

// The due fires of the schedules after `start` and at or before `end`: one for each match, also if
// the clock skips it or shows it twice.
fn dues_between(
    alloc: Global,
    schedules: &[ScheduleFields],
    start: Timestamp,
    end: Timestamp,
    zone: &TimeZone<'_>,
) -> Result<Vec<EntryFire>, AllocError>
    ensures { IfOk result (λ fires. fires.items
        ≡ dues_between (any_of schedules.now) (plain_zone zone.now) start.nanosecond end.nanosecond) }
{
    let mut fires = Vec::new(alloc);
    let table = Union { schedules };
    for due in Dues::between(&table, start, end, zone) {
        fires.push(EntryFire::Once(due))?;
    }
    Ok(fires)
}

/// The fires of several schedules as one after `start` and at or before `end`, by the rule
/// `changes`.
pub(crate) fn fires_between(
    alloc: Global,
    schedules: &[ScheduleFields],
    changes: ClockChanges,
    start: Timestamp,
    end: Timestamp,
    zone: &TimeZone<'_>,
) -> Result<Vec<EntryFire>, AllocError>
    ensures { IfOk result (λ fires. fires.items ≡ fires_between
        (any_of schedules.now) (plain_zone zone.now) changes start.nanosecond end.nanosecond) }
{
    match changes {
        ClockChanges::AsShown => shown_between(alloc, schedules, start, end, zone),
        ClockChanges::Once => dues_between(alloc, schedules, start, end, zone),
    }
}
