//! Due fires in the zone of a rule: each match once, also when the clock changes.

ghost use Rattle.std.specs.Prelude.{◌≡◌};
ghost use Rattle.cron_dues.specs.Clock.FirstDues.{IsFirstDueAfter, IsLastDueBy};
ghost use Rattle.cron_c.specs.Calls.{Answers};
ghost use Rattle.cron_c.specs.Dues.{FindsDue, FollowsDue, InZone, RunsDueBetween, RunsDuePast};
ghost use Rattle.cron_c.specs.Structs.{seconds_of_struct};

use crate::due_by_clock;
use crate::item::CronItem;
use crate::schedule::{CronSchedule, fields_of};
use crate::status::Status;
use crate::zone::{CronZone, zone_in};

fn due_after(schedule: &CronSchedule, zone: &CronZone, second: i64, item: &mut CronItem) -> Status
    ensures { InZone zone.now
        (FindsDue IsFirstDueAfter (seconds_of_struct schedule.now) second item.old item.new)
        (item.new ≡ item.old) result }
{
    let Some(zone) = zone_in(zone) else {
        return Status::BadZone;
    };
    due_by_clock::due_after(&fields_of(schedule), &zone, second, item)
}

fn due_by(schedule: &CronSchedule, zone: &CronZone, second: i64, item: &mut CronItem) -> Status
    ensures { InZone zone.now
        (FindsDue IsLastDueBy (seconds_of_struct schedule.now) second item.old item.new)
        (item.new ≡ item.old) result }
{
    let Some(zone) = zone_in(zone) else {
        return Status::BadZone;
    };
    due_by_clock::due_by(&fields_of(schedule), &zone, second, item)
}

fn due_past(schedule: &CronSchedule, zone: &CronZone, item: &mut CronItem) -> Status
    ensures { InZone zone.now
        (FollowsDue (seconds_of_struct schedule.now) item.old item.new)
        (item.new ≡ item.old) result }
{
    let Some(zone) = zone_in(zone) else {
        return Status::BadZone;
    };
    due_by_clock::due_past(&fields_of(schedule), &zone, item)
}

fn dues_between(
    schedule: &CronSchedule,
    zone: &CronZone,
    last: i64,
    now: i64,
    items: &mut [CronItem],
    count: &mut usize,
) -> Status
    ensures { InZone zone.now
        (RunsDueBetween (seconds_of_struct schedule.now) last now items.old items.new count.new)
        ((items.new ≡ items.old) × (count.new ≡ 0)) result }
{
    *count = 0;
    let Some(zone) = zone_in(zone) else {
        return Status::BadZone;
    };
    due_by_clock::dues_between(&fields_of(schedule), &zone, last, now, items, count)
}

fn dues_past(
    schedule: &CronSchedule,
    zone: &CronZone,
    item: &CronItem,
    now: i64,
    items: &mut [CronItem],
    count: &mut usize,
) -> Status
    ensures { InZone zone.now
        (RunsDuePast (seconds_of_struct schedule.now) item.now now items.old items.new count.new)
        ((items.new ≡ items.old) × (count.new ≡ 0)) result }
{
    *count = 0;
    let Some(zone) = zone_in(zone) else {
        return Status::BadZone;
    };
    due_by_clock::dues_past(&fields_of(schedule), &zone, item, now, items, count)
}

/// Writes the first due fire with an instant after `instant`, which is in seconds since
/// 1970-01-01T00:00:00Z. Returns the number of a `Status`.
#[unsafe(no_mangle)]
pub extern "C" fn cron_c_due_after(
    schedule: &CronSchedule,
    zone: &CronZone,
    instant: i64,
    item: &mut CronItem,
) -> u32
    ensures { Answers (InZone zone.now
        (FindsDue IsFirstDueAfter (seconds_of_struct schedule.now) instant item.old item.new)
        (item.new ≡ item.old)) result }
{
    due_after(schedule, zone, instant, item).code()
}

/// Writes the last due fire with an instant at or before `instant`, which is in seconds since
/// 1970-01-01T00:00:00Z. Returns the number of a `Status`.
#[unsafe(no_mangle)]
pub extern "C" fn cron_c_due_by(
    schedule: &CronSchedule,
    zone: &CronZone,
    instant: i64,
    item: &mut CronItem,
) -> u32
    ensures { Answers (InZone zone.now
        (FindsDue IsLastDueBy (seconds_of_struct schedule.now) instant item.old item.new)
        (item.new ≡ item.old)) result }
{
    due_by(schedule, zone, instant, item).code()
}

/// Replaces the due fire `item` by the first due fire after it. Returns the number of a `Status`.
#[unsafe(no_mangle)]
pub extern "C" fn cron_c_due_past(
    schedule: &CronSchedule,
    zone: &CronZone,
    item: &mut CronItem,
) -> u32
    ensures { Answers (InZone zone.now
        (FollowsDue (seconds_of_struct schedule.now) item.old item.new)
        (item.new ≡ item.old)) result }
{
    due_past(schedule, zone, item).code()
}

/// Writes the due fires with an instant after the UTC second `last` and at or before `now`, in
/// order, as far as they fit, and writes their count. Returns the number of a `Status`.
#[unsafe(no_mangle)]
pub extern "C" fn cron_c_dues_between(
    schedule: &CronSchedule,
    zone: &CronZone,
    last: i64,
    now: i64,
    items: &mut [CronItem],
    count: &mut usize,
) -> u32
    ensures { Answers (InZone zone.now
        (RunsDueBetween (seconds_of_struct schedule.now) last now items.old items.new count.new)
        ((items.new ≡ items.old) × (count.new ≡ 0))) result }
{
    dues_between(schedule, zone, last, now, items, count).code()
}

/// Writes the due fires after the due fire `item`, with an instant at or before the UTC second
/// `now`, in order, as far as they fit, and writes their count. Returns the number of a `Status`.
#[unsafe(no_mangle)]
pub extern "C" fn cron_c_dues_past(
    schedule: &CronSchedule,
    zone: &CronZone,
    item: &CronItem,
    now: i64,
    items: &mut [CronItem],
    count: &mut usize,
) -> u32
    ensures { Answers (InZone zone.now
        (RunsDuePast (seconds_of_struct schedule.now) item.now now items.old items.new count.new)
        ((items.new ≡ items.old) × (count.new ≡ 0))) result }
{
    dues_past(schedule, zone, item, now, items, count).code()
}
