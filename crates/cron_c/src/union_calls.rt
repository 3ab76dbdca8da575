//! Items of several schedules as one in a zone with a history, in the order of instants.

ghost use Rattle.cron_c.specs.Calls.{Answers};
ghost use Rattle.cron_c.specs.Histories.{FiresIn, IsFirstInAfter, IsLastInBy, RunsInBetween, RunsInPast};
ghost use Rattle.cron_c.specs.Unions.{seconds_of_any};

use crate::era::CronEra;
use crate::history_calls::{fire_after, fire_by, run_between, run_past};
use crate::item::CronItem;
use crate::schedule::CronSchedule;
use cron_unions::AnyOf;

/// Writes the earliest item of any of the schedules with an instant after the UTC second `instant`.
/// Returns the number of a `Status`.
#[unsafe(no_mangle)]
pub extern "C" fn cron_c_union_fire_after(
    schedules: &[CronSchedule],
    eras: &[CronEra],
    instant: i64,
    item: &mut CronItem,
) -> u32
    ensures { Answers (FiresIn IsFirstInAfter (seconds_of_any schedules.now) eras.now instant
        item.old item.new) result }
{
    fire_after(&AnyOf { sets: schedules }, eras, instant, item).code()
}

/// Writes the latest item of any of the schedules with an instant at or before the UTC second
/// `instant`. Returns the number of a `Status`.
#[unsafe(no_mangle)]
pub extern "C" fn cron_c_union_fire_by(
    schedules: &[CronSchedule],
    eras: &[CronEra],
    instant: i64,
    item: &mut CronItem,
) -> u32
    ensures { Answers (FiresIn IsLastInBy (seconds_of_any schedules.now) eras.now instant
        item.old item.new) result }
{
    fire_by(&AnyOf { sets: schedules }, eras, instant, item).code()
}

/// Writes the items of any of the schedules after the UTC second `last` and at or before `now`, the
/// earliest first, as far as they fit, and their count. Returns the number of a `Status`.
#[unsafe(no_mangle)]
pub extern "C" fn cron_c_union_fires_between(
    schedules: &[CronSchedule],
    eras: &[CronEra],
    last: i64,
    now: i64,
    items: &mut [CronItem],
    count: &mut usize,
) -> u32
    ensures { Answers (RunsInBetween (seconds_of_any schedules.now) eras.now last now
        items.old items.new count.new) result }
{
    run_between(&AnyOf { sets: schedules }, eras, last, now, items, count).code()
}

/// Writes the items of any of the schedules later than `item` and at or before the UTC second
/// `now`, the earliest first, as far as they fit, and their count. Returns the number of a
/// `Status`.
#[unsafe(no_mangle)]
pub extern "C" fn cron_c_union_fires_past(
    schedules: &[CronSchedule],
    eras: &[CronEra],
    item: &CronItem,
    now: i64,
    items: &mut [CronItem],
    count: &mut usize,
) -> u32
    ensures { Answers (RunsInPast (seconds_of_any schedules.now) eras.now item.now now
        items.old items.new count.new) result }
{
    run_past(&AnyOf { sets: schedules }, eras, item, now, items, count).code()
}
