//! Items of a zone with a history, in the order of instants. Instants are in seconds since
//! 1970-01-01T00:00:00Z.

ghost use Rattle.cron_c.specs.Calls.{Answers};
ghost use Rattle.cron_c.specs.Histories.{ChecksHistory, FiresIn, FiresInAt, IsFirstInAfter, IsLastInBy, RunsInBetween, RunsInPast};
ghost use Rattle.cron_c.specs.Structs.{seconds_of_struct};

use crate::era::{CronEra, is_history};
use crate::history::{Begin, first_of_history, last_of_history};
use crate::history_runs::fill_history;
use crate::item::{CronItem, item_of, moment_of, write_found};
use crate::schedule::{CronSchedule, fields_of};
use crate::status::Status;
use cron_seconds::civil_seconds::CivilSeconds;
use jiff::Timestamp;

/// Writes the earliest item of `set` with an instant after the UTC second `second`.
pub fn fire_after<S: CivilSeconds>(
    set: &S,
    eras: &[CronEra],
    second: i64,
    item: &mut CronItem,
) -> Status
    ensures { FiresIn IsFirstInAfter (S.has set.now) eras.now second
        item.old item.new result }
{
    let Ok(now) = Timestamp::from_second(second) else {
        return Status::BadInstant;
    };
    match first_of_history(set, eras, &Begin::After(now)) {
        Ok(found) => write_found(found, item),
        Err(_) => Status::BadZone,
    }
}

/// Writes the latest item of `set` with an instant at or before the UTC second `second`.
pub fn fire_by<S: CivilSeconds>(
    set: &S,
    eras: &[CronEra],
    second: i64,
    item: &mut CronItem,
) -> Status
    ensures { FiresIn IsLastInBy (S.has set.now) eras.now second item.old item.new result }
{
    let Ok(now) = Timestamp::from_second(second) else {
        return Status::BadInstant;
    };
    match last_of_history(set, eras, now) {
        Ok(found) => write_found(found, item),
        Err(_) => Status::BadZone,
    }
}

fn fire_at<S: CivilSeconds>(set: &S, eras: &[CronEra], second: i64, item: &mut CronItem) -> Status
    ensures { FiresInAt (S.has set.now) eras.now second item.old item.new result }
{
    let Ok(now) = Timestamp::from_second(second) else {
        return Status::BadInstant;
    };
    let found = match last_of_history(set, eras, now) {
        Ok(Some(found)) => found,
        Ok(None) => return Status::NoItem,
        Err(_) => return Status::BadZone,
    };
    let last = item_of(&found);
    if last.instant != second {
        return Status::NoItem;
    }
    *item = last;
    Status::Done
}

/// Writes the items of `set` with an instant after the UTC second `last` and at or before `now`, as
/// far as they fit, and their count.
pub fn run_between<S: CivilSeconds>(
    set: &S,
    eras: &[CronEra],
    last: i64,
    now: i64,
    items: &mut [CronItem],
    count: &mut usize,
) -> Status
    ensures { RunsInBetween (S.has set.now) eras.now last now
        items.old items.new count.new result }
{
    *count = 0;
    let Ok(last) = Timestamp::from_second(last) else {
        return Status::BadInstant;
    };
    let Ok(now) = Timestamp::from_second(now) else {
        return Status::BadInstant;
    };
    let begin = Begin::After(last);
    fill_history(set, eras, &begin, now, items, count)
}

/// Writes the items of `set` that are later than `item`, with an instant at or before the UTC
/// second `now`, as far as they fit, and their count.
pub fn run_past<S: CivilSeconds>(
    set: &S,
    eras: &[CronEra],
    item: &CronItem,
    now: i64,
    items: &mut [CronItem],
    count: &mut usize,
) -> Status
    ensures { RunsInPast (S.has set.now) eras.now item.now now
        items.old items.new count.new result }
{
    *count = 0;
    let Some(given) = moment_of(*item) else {
        return Status::NotAnItem;
    };
    let Ok(now) = Timestamp::from_second(now) else {
        return Status::BadInstant;
    };
    let begin = Begin::Past(given);
    fill_history(set, eras, &begin, now, items, count)
}

fn check(eras: &[CronEra]) -> Status
    ensures { ChecksHistory eras.now result }
{
    if is_history(eras) {
        Status::Done
    } else {
        Status::BadZone
    }
}

/// Checks that `eras` are a history: each has a valid zone, and starts later than the one before
/// it. The calls for items check only the eras that they come to, and the calls for due fires check
/// all. Returns the number of a `Status`.
#[unsafe(no_mangle)]
pub extern "C" fn cron_c_history_check(eras: &[CronEra]) -> u32
    ensures { Answers (ChecksHistory eras.now) result }
{
    check(eras).code()
}

/// Writes the earliest item of a history with an instant after the UTC second `instant`. Returns
/// the number of a `Status`.
#[unsafe(no_mangle)]
pub extern "C" fn cron_c_history_fire_after(
    schedule: &CronSchedule,
    eras: &[CronEra],
    instant: i64,
    item: &mut CronItem,
) -> u32
    ensures { Answers (FiresIn IsFirstInAfter (seconds_of_struct schedule.now) eras.now instant
        item.old item.new) result }
{
    fire_after(&fields_of(schedule), eras, instant, item).code()
}

/// Writes the latest item of a history with an instant at or before the UTC second `instant`.
/// Returns the number of a `Status`.
#[unsafe(no_mangle)]
pub extern "C" fn cron_c_history_fire_by(
    schedule: &CronSchedule,
    eras: &[CronEra],
    instant: i64,
    item: &mut CronItem,
) -> u32
    ensures { Answers (FiresIn IsLastInBy (seconds_of_struct schedule.now) eras.now instant
        item.old item.new) result }
{
    fire_by(&fields_of(schedule), eras, instant, item).code()
}

/// Writes the item of a history at the UTC second `instant`. If two items share it, the one with
/// the later civil second is written. Returns the number of a `Status`.
#[unsafe(no_mangle)]
pub extern "C" fn cron_c_history_fire_at(
    schedule: &CronSchedule,
    eras: &[CronEra],
    instant: i64,
    item: &mut CronItem,
) -> u32
    ensures { Answers (FiresInAt (seconds_of_struct schedule.now) eras.now instant
        item.old item.new) result }
{
    fire_at(&fields_of(schedule), eras, instant, item).code()
}

/// Writes the items of a history after the UTC second `last` and at or before `now`, the earliest
/// first, as far as they fit, and writes their count. Returns the number of a `Status`.
#[unsafe(no_mangle)]
pub extern "C" fn cron_c_history_fires_between(
    schedule: &CronSchedule,
    eras: &[CronEra],
    last: i64,
    now: i64,
    items: &mut [CronItem],
    count: &mut usize,
) -> u32
    ensures { Answers (RunsInBetween (seconds_of_struct schedule.now) eras.now last now
        items.old items.new count.new) result }
{
    run_between(&fields_of(schedule), eras, last, now, items, count).code()
}

/// Writes the items of a history later than `item` and at or before the UTC second `now`, the
/// earliest first, as far as they fit, and writes their count. Returns the number of a `Status`.
#[unsafe(no_mangle)]
pub extern "C" fn cron_c_history_fires_past(
    schedule: &CronSchedule,
    eras: &[CronEra],
    item: &CronItem,
    now: i64,
    items: &mut [CronItem],
    count: &mut usize,
) -> u32
    ensures { Answers (RunsInPast (seconds_of_struct schedule.now) eras.now item.now now
        items.old items.new count.new) result }
{
    run_past(&fields_of(schedule), eras, item, now, items, count).code()
}
