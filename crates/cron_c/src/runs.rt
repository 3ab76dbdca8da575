//! Many items in one call, in the order of instants, and of civil seconds if two share an instant.
//! Instants are in seconds since 1970-01-01T00:00:00Z.

ghost use Rattle.jiff.specs.Words.{plain_zone};
ghost use Rattle.cron_instants.specs.Fires.{fires_between, fires_past_by};
ghost use Rattle.cron_c.specs.Arrays.{Fills};
ghost use Rattle.cron_c.specs.Calls.{Answers};
ghost use Rattle.cron_c.specs.Runs.{RunsBetween, RunsPast};
ghost use Rattle.cron_c.specs.Structs.{IsItem, seconds_of_struct};

use crate::item::{CronItem, moment_of};
use crate::itemed::{fill_between, fill_past};
use crate::schedule::{CronSchedule, fields_of};
use crate::status::Status;
use crate::zone::{CronZone, zone_in};
use cron_instants::as_shown::AsShown;
use cron_moments::moment::Moment;
use cron_seconds::civil_seconds::CivilSeconds;
use jiff::Timestamp;
use jiff::tz::TimeZone;

/// Writes the items of `set` after `last` and at or before `now` as far as they fit, and their
/// count.
pub fn list_between<S: CivilSeconds>(
    set: &S,
    last: Timestamp,
    now: Timestamp,
    zone: &TimeZone<'_>,
    items: &mut [CronItem],
    count: &mut usize,
) -> Status
    ensures { Fills IsItem
        (fires_between (S.has set.now) (plain_zone zone.now) last.nanosecond now.nanosecond)
        items.old items.new count.new result }
{
    fill_between::<S, AsShown<_>>(set, last, now, zone, items, count)
}

/// Writes the items of `set` that are later than `item` and at or before `now` as far as they fit,
/// and their count.
pub fn list_past<S: CivilSeconds>(
    set: &S,
    item: &Moment,
    now: Timestamp,
    zone: &TimeZone<'_>,
    items: &mut [CronItem],
    count: &mut usize,
) -> Status
    ensures { Fills IsItem
        (fires_past_by (S.has set.now) (plain_zone zone.now) item.now now.nanosecond)
        items.old items.new count.new result }
{
    fill_past::<S, AsShown<_>>(set, item, now, zone, items, count)
}

fn run_between(
    schedule: &CronSchedule,
    zone: &CronZone,
    last: i64,
    now: i64,
    items: &mut [CronItem],
    count: &mut usize,
) -> Status
    ensures { RunsBetween (seconds_of_struct schedule.now) zone.now last now
        items.old items.new count.new result }
{
    *count = 0;
    let Some(zone) = zone_in(zone) else {
        return Status::BadZone;
    };
    let Ok(last) = Timestamp::from_second(last) else {
        return Status::BadInstant;
    };
    let Ok(now) = Timestamp::from_second(now) else {
        return Status::BadInstant;
    };
    list_between(&fields_of(schedule), last, now, &zone, items, count)
}

fn run_past(
    schedule: &CronSchedule,
    zone: &CronZone,
    item: &CronItem,
    now: i64,
    items: &mut [CronItem],
    count: &mut usize,
) -> Status
    ensures { RunsPast (seconds_of_struct schedule.now) zone.now item.now now
        items.old items.new count.new result }
{
    *count = 0;
    let Some(zone) = zone_in(zone) else {
        return Status::BadZone;
    };
    let Some(given) = moment_of(*item) else {
        return Status::NotAnItem;
    };
    let Ok(now) = Timestamp::from_second(now) else {
        return Status::BadInstant;
    };
    list_past(&fields_of(schedule), &given, now, &zone, items, count)
}

/// Writes the items with an instant after the UTC second `last` and at or before `now`, the
/// earliest first, as far as they fit, and writes their count. Returns the number of a `Status`.
#[unsafe(no_mangle)]
pub extern "C" fn cron_c_fires_between(
    schedule: &CronSchedule,
    zone: &CronZone,
    last: i64,
    now: i64,
    items: &mut [CronItem],
    count: &mut usize,
) -> u32
    ensures { Answers (RunsBetween (seconds_of_struct schedule.now) zone.now last now
        items.old items.new count.new) result }
{
    run_between(schedule, zone, last, now, items, count).code()
}

/// Writes the items that are later than `item`, with an instant at or before the UTC second `now`,
/// the earliest first, as far as they fit, and writes their count. Returns the number of a
/// `Status`.
#[unsafe(no_mangle)]
pub extern "C" fn cron_c_fires_past(
    schedule: &CronSchedule,
    zone: &CronZone,
    item: &CronItem,
    now: i64,
    items: &mut [CronItem],
    count: &mut usize,
) -> u32
    ensures { Answers (RunsPast (seconds_of_struct schedule.now) zone.now item.now now
        items.old items.new count.new) result }
{
    run_past(schedule, zone, item, now, items, count).code()
}
