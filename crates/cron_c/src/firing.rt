//! Items found by an instant, in the order of instants.

ghost use Rattle.jiff.specs.Words.{plain_zone};
ghost use Rattle.cron_instants.specs.Instants.{IsFirstAfter, IsLastBy};
ghost use Rattle.cron_c.specs.Calls.{Answers, Fires, FiresAt, IsNearestFire};
ghost use Rattle.cron_c.specs.Structs.{seconds_of_struct};

use crate::item::{CronItem, item_of, write_found};
use crate::schedule::{CronSchedule, fields_of};
use crate::status::Status;
use crate::zone::{CronZone, zone_in};
use cron_instants::instants::{first_after, last_by};
use cron_moments::moment::Moment;
use cron_units::way::Way;
use jiff::Timestamp;
use jiff::tz::TimeZone;

// The first item after `now`, or, with `Way::Back`, the last item at or before it.
fn nearest_fire(
    way: Way,
    schedule: &CronSchedule,
    zone: &TimeZone<'_>,
    now: Timestamp,
) -> Option<Moment>
    ensures { IsNearestFire way (seconds_of_struct schedule.now) (plain_zone zone.now)
        now.nanosecond result }
{
    let fields = fields_of(schedule);
    match way {
        Way::Ahead => first_after(&fields, now, zone),
        Way::Back => last_by(&fields, now, zone),
    }
}

fn fire(
    way: Way,
    schedule: &CronSchedule,
    zone: &CronZone,
    second: i64,
    item: &mut CronItem,
) -> Status
    ensures { Fires (IsNearestFire way) (seconds_of_struct schedule.now) zone.now second
        item.old item.new result }
{
    let Some(zone) = zone_in(zone) else {
        return Status::BadZone;
    };
    let Ok(now) = Timestamp::from_second(second) else {
        return Status::BadInstant;
    };
    write_found(nearest_fire(way, schedule, &zone, now), item)
}

/// Writes the earliest item with an instant after `instant`, which is in seconds since
/// 1970-01-01T00:00:00Z. Returns the number of a `Status`.
#[unsafe(no_mangle)]
pub extern "C" fn cron_c_fire_after(
    schedule: &CronSchedule,
    zone: &CronZone,
    instant: i64,
    item: &mut CronItem,
) -> u32
    ensures { Answers (Fires IsFirstAfter (seconds_of_struct schedule.now) zone.now instant
        item.old item.new) result }
{
    fire(Way::Ahead, schedule, zone, instant, item).code()
}

/// Writes the latest item with an instant at or before `instant`, which is in seconds since
/// 1970-01-01T00:00:00Z. Returns the number of a `Status`.
#[unsafe(no_mangle)]
pub extern "C" fn cron_c_fire_by(
    schedule: &CronSchedule,
    zone: &CronZone,
    instant: i64,
    item: &mut CronItem,
) -> u32
    ensures { Answers (Fires IsLastBy (seconds_of_struct schedule.now) zone.now instant
        item.old item.new) result }
{
    fire(Way::Back, schedule, zone, instant, item).code()
}

fn fire_at(schedule: &CronSchedule, zone: &CronZone, second: i64, item: &mut CronItem) -> Status
    ensures { FiresAt (seconds_of_struct schedule.now) zone.now second item.old item.new result }
{
    let Some(zone) = zone_in(zone) else {
        return Status::BadZone;
    };
    let Ok(now) = Timestamp::from_second(second) else {
        return Status::BadInstant;
    };
    let Some(found) = nearest_fire(Way::Back, schedule, &zone, now) else {
        return Status::NoItem;
    };
    let last = item_of(&found);
    if last.instant != second {
        return Status::NoItem;
    }
    *item = last;
    Status::Done
}

/// Writes the item at `instant`, which is in seconds since 1970-01-01T00:00:00Z. If two items share
/// it, the one with the later civil second is written. Returns the number of a `Status`.
#[unsafe(no_mangle)]
pub extern "C" fn cron_c_fire_at(
    schedule: &CronSchedule,
    zone: &CronZone,
    instant: i64,
    item: &mut CronItem,
) -> u32
    ensures { Answers (FiresAt (seconds_of_struct schedule.now) zone.now instant
        item.old item.new) result }
{
    fire_at(schedule, zone, instant, item).code()
}
