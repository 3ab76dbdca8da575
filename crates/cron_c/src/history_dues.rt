//! Due fires of a zone with a history: each match once, also when the clock changes. Instants are
//! in seconds since 1970-01-01T00:00:00Z.

ghost use Rattle.std.specs.Prelude.{◌≡◌};
ghost use Rattle.cron_dues.specs.Clock.FirstDues.{IsFirstDueAfter, IsLastDueBy};
ghost use Rattle.cron_c.specs.Calls.{Answers};
ghost use Rattle.cron_c.specs.Dues.{FindsDue, FollowsDue, RunsDueBetween, RunsDuePast};
ghost use Rattle.cron_c.specs.HistoryClocks.{InHistory};
ghost use Rattle.cron_c.specs.Structs.{seconds_of_struct};

use crate::due_by_clock;
use crate::era::CronEra;
use crate::history_clock::clock_of_eras;
use crate::item::CronItem;
use crate::schedule::{CronSchedule, fields_of};
use crate::status::Status;
use cron_seconds::civil_seconds::CivilSeconds;

/// Writes the first due fire of `set` after the instant `second`.
pub fn due_after<S: CivilSeconds>(
    set: &S,
    eras: &[CronEra],
    second: i64,
    item: &mut CronItem,
) -> Status
    ensures { InHistory eras.now
        (FindsDue IsFirstDueAfter (S.has set.now) second item.old item.new)
        (item.new ≡ item.old) result }
{
    let Some(clock) = clock_of_eras(eras) else {
        return Status::BadZone;
    };
    due_by_clock::due_after(set, &clock, second, item)
}

/// Writes the last due fire of `set` at or before the instant `second`.
pub fn due_by<S: CivilSeconds>(
    set: &S,
    eras: &[CronEra],
    second: i64,
    item: &mut CronItem,
) -> Status
    ensures { InHistory eras.now
        (FindsDue IsLastDueBy (S.has set.now) second item.old item.new)
        (item.new ≡ item.old) result }
{
    let Some(clock) = clock_of_eras(eras) else {
        return Status::BadZone;
    };
    due_by_clock::due_by(set, &clock, second, item)
}

/// Replaces the due fire `item` by the first due fire of `set` after it.
pub fn due_past<S: CivilSeconds>(set: &S, eras: &[CronEra], item: &mut CronItem) -> Status
    ensures { InHistory eras.now
        (FollowsDue (S.has set.now) item.old item.new)
        (item.new ≡ item.old) result }
{
    let Some(clock) = clock_of_eras(eras) else {
        return Status::BadZone;
    };
    due_by_clock::due_past(set, &clock, item)
}

/// Writes the due fires of `set` after the instant `last` and at or before `now` as far as they
/// fit, and their count.
pub fn dues_between<S: CivilSeconds>(
    set: &S,
    eras: &[CronEra],
    last: i64,
    now: i64,
    items: &mut [CronItem],
    count: &mut usize,
) -> Status
    ensures { InHistory eras.now
        (RunsDueBetween (S.has set.now) last now items.old items.new count.new)
        ((items.new ≡ items.old) × (count.new ≡ 0)) result }
{
    *count = 0;
    let Some(clock) = clock_of_eras(eras) else {
        return Status::BadZone;
    };
    due_by_clock::dues_between(set, &clock, last, now, items, count)
}

/// Writes the due fires of `set` after the due fire `item` and at or before the instant `now` as
/// far as they fit, and their count.
pub fn dues_past<S: CivilSeconds>(
    set: &S,
    eras: &[CronEra],
    item: &CronItem,
    now: i64,
    items: &mut [CronItem],
    count: &mut usize,
) -> Status
    ensures { InHistory eras.now
        (RunsDuePast (S.has set.now) item.now now items.old items.new count.new)
        ((items.new ≡ items.old) × (count.new ≡ 0)) result }
{
    *count = 0;
    let Some(clock) = clock_of_eras(eras) else {
        return Status::BadZone;
    };
    due_by_clock::dues_past(set, &clock, item, now, items, count)
}

/// Writes the first due fire of a history with an instant after the UTC second `instant`. Returns
/// the number of a `Status`.
#[unsafe(no_mangle)]
pub extern "C" fn cron_c_history_due_after(
    schedule: &CronSchedule,
    eras: &[CronEra],
    instant: i64,
    item: &mut CronItem,
) -> u32
    ensures { Answers (InHistory eras.now
        (FindsDue IsFirstDueAfter (seconds_of_struct schedule.now) instant item.old item.new)
        (item.new ≡ item.old)) result }
{
    due_after(&fields_of(schedule), eras, instant, item).code()
}

/// Writes the last due fire of a history with an instant at or before the UTC second `instant`.
/// Returns the number of a `Status`.
#[unsafe(no_mangle)]
pub extern "C" fn cron_c_history_due_by(
    schedule: &CronSchedule,
    eras: &[CronEra],
    instant: i64,
    item: &mut CronItem,
) -> u32
    ensures { Answers (InHistory eras.now
        (FindsDue IsLastDueBy (seconds_of_struct schedule.now) instant item.old item.new)
        (item.new ≡ item.old)) result }
{
    due_by(&fields_of(schedule), eras, instant, item).code()
}

/// Replaces the due fire `item` by the first due fire of a history after it. Returns the number of
/// a `Status`.
#[unsafe(no_mangle)]
pub extern "C" fn cron_c_history_due_past(
    schedule: &CronSchedule,
    eras: &[CronEra],
    item: &mut CronItem,
) -> u32
    ensures { Answers (InHistory eras.now
        (FollowsDue (seconds_of_struct schedule.now) item.old item.new)
        (item.new ≡ item.old)) result }
{
    due_past(&fields_of(schedule), eras, item).code()
}

/// Writes the due fires of a history after the UTC second `last` and at or before `now`, in order,
/// as far as they fit, and writes their count. Returns the number of a `Status`.
#[unsafe(no_mangle)]
pub extern "C" fn cron_c_history_dues_between(
    schedule: &CronSchedule,
    eras: &[CronEra],
    last: i64,
    now: i64,
    items: &mut [CronItem],
    count: &mut usize,
) -> u32
    ensures { Answers (InHistory eras.now
        (RunsDueBetween (seconds_of_struct schedule.now) last now items.old items.new count.new)
        ((items.new ≡ items.old) × (count.new ≡ 0))) result }
{
    dues_between(&fields_of(schedule), eras, last, now, items, count).code()
}

/// Writes the due fires of a history after the due fire `item` and at or before the UTC second
/// `now`, in order, as far as they fit, and their count. Returns the number of a `Status`.
#[unsafe(no_mangle)]
pub extern "C" fn cron_c_history_dues_past(
    schedule: &CronSchedule,
    eras: &[CronEra],
    item: &CronItem,
    now: i64,
    items: &mut [CronItem],
    count: &mut usize,
) -> u32
    ensures { Answers (InHistory eras.now
        (RunsDuePast (seconds_of_struct schedule.now) item.now now items.old items.new count.new)
        ((items.new ≡ items.old) × (count.new ≡ 0))) result }
{
    dues_past(&fields_of(schedule), eras, item, now, items, count).code()
}
