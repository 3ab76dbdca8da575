//! Due fires of several schedules as one in a zone with a history: each match once, also if several
//! of them have it or when the clock changes.

ghost use Rattle.std.specs.Prelude.{◌≡◌};
ghost use Rattle.cron_dues.specs.Clock.FirstDues.{IsFirstDueAfter, IsLastDueBy};
ghost use Rattle.cron_c.specs.Calls.{Answers};
ghost use Rattle.cron_c.specs.Dues.{FindsDue, FollowsDue, RunsDueBetween, RunsDuePast};
ghost use Rattle.cron_c.specs.HistoryClocks.{InHistory};
ghost use Rattle.cron_c.specs.Unions.{seconds_of_any};

use crate::era::CronEra;
use crate::history_dues::{due_after, due_by, due_past, dues_between, dues_past};
use crate::item::CronItem;
use crate::schedule::CronSchedule;
use cron_unions::AnyOf;

/// Writes the first due fire of any of the schedules with an instant after the UTC second
/// `instant`. Returns the number of a `Status`.
#[unsafe(no_mangle)]
pub extern "C" fn cron_c_union_due_after(
    schedules: &[CronSchedule],
    eras: &[CronEra],
    instant: i64,
    item: &mut CronItem,
) -> u32
    ensures { Answers (InHistory eras.now
        (FindsDue IsFirstDueAfter (seconds_of_any schedules.now) instant item.old item.new)
        (item.new ≡ item.old)) result }
{
    due_after(&AnyOf { sets: schedules }, eras, instant, item).code()
}

/// Writes the last due fire of any of the schedules with an instant at or before the UTC second
/// `instant`. Returns the number of a `Status`.
#[unsafe(no_mangle)]
pub extern "C" fn cron_c_union_due_by(
    schedules: &[CronSchedule],
    eras: &[CronEra],
    instant: i64,
    item: &mut CronItem,
) -> u32
    ensures { Answers (InHistory eras.now
        (FindsDue IsLastDueBy (seconds_of_any schedules.now) instant item.old item.new)
        (item.new ≡ item.old)) result }
{
    due_by(&AnyOf { sets: schedules }, eras, instant, item).code()
}

/// Replaces the due fire `item` by the first due fire of any of the schedules after it. Returns the
/// number of a `Status`.
#[unsafe(no_mangle)]
pub extern "C" fn cron_c_union_due_past(
    schedules: &[CronSchedule],
    eras: &[CronEra],
    item: &mut CronItem,
) -> u32
    ensures { Answers (InHistory eras.now
        (FollowsDue (seconds_of_any schedules.now) item.old item.new)
        (item.new ≡ item.old)) result }
{
    due_past(&AnyOf { sets: schedules }, eras, item).code()
}

/// Writes the due fires of any of the schedules after the UTC second `last` and at or before `now`,
/// in order, as far as they fit, and their count. Returns the number of a `Status`.
#[unsafe(no_mangle)]
pub extern "C" fn cron_c_union_dues_between(
    schedules: &[CronSchedule],
    eras: &[CronEra],
    last: i64,
    now: i64,
    items: &mut [CronItem],
    count: &mut usize,
) -> u32
    ensures { Answers (InHistory eras.now
        (RunsDueBetween (seconds_of_any schedules.now) last now
        items.old items.new count.new)
        ((items.new ≡ items.old) × (count.new ≡ 0))) result }
{
    dues_between(&AnyOf { sets: schedules }, eras, last, now, items, count).code()
}

/// Writes the due fires of any schedule after the due fire `item` and at or before the UTC second
/// `now`, in order, as far as they fit, and their count. Returns the number of a `Status`.
#[unsafe(no_mangle)]
pub extern "C" fn cron_c_union_dues_past(
    schedules: &[CronSchedule],
    eras: &[CronEra],
    item: &CronItem,
    now: i64,
    items: &mut [CronItem],
    count: &mut usize,
) -> u32
    ensures { Answers (InHistory eras.now
        (RunsDuePast (seconds_of_any schedules.now) item.now now
        items.old items.new count.new)
        ((items.new ≡ items.old) × (count.new ≡ 0))) result }
{
    dues_past(&AnyOf { sets: schedules }, eras, item, now, items, count).code()
}
