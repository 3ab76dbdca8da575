//! Due fires of a set of civil seconds by any clock: the clock of a rule, or of a history. A due
//! fire is a match that fires once, also when the clock changes. Instants are in seconds since
//! 1970-01-01T00:00:00Z.

ghost use Rattle.cron_dues.specs.Clock.FirstDues.{IsFirstDueAfter, IsLastDueBy};
ghost use Rattle.cron_c.specs.Dues.{FindsDue, FollowsDue, RunsDueBetween, RunsDuePast};

use crate::due_item::{due_of_item, write_due};
use crate::item::CronItem;
use crate::itemed::{fill_between, fill_past};
use crate::status::Status;
use cron_dues::clock::Clock;
use cron_dues::dues::{first_after, first_past, last_by};
use cron_dues::once::Once;
use cron_seconds::civil_seconds::CivilSeconds;
use jiff::Timestamp;

/// Writes the first due fire after the instant `second`.
pub fn due_after<S: CivilSeconds, C: Clock>(
    set: &S,
    clock: &C,
    second: i64,
    item: &mut CronItem,
) -> Status
    ensures { FindsDue IsFirstDueAfter (S.has set.now) second
        item.old item.new (C.offsets clock.now) result }
{
    let Ok(now) = Timestamp::from_second(second) else {
        return Status::BadInstant;
    };
    write_due(first_after(set, now, clock), item)
}

/// Writes the last due fire at or before the instant `second`.
pub fn due_by<S: CivilSeconds, C: Clock>(
    set: &S,
    clock: &C,
    second: i64,
    item: &mut CronItem,
) -> Status
    ensures { FindsDue IsLastDueBy (S.has set.now) second
        item.old item.new (C.offsets clock.now) result }
{
    let Ok(now) = Timestamp::from_second(second) else {
        return Status::BadInstant;
    };
    write_due(last_by(set, now, clock), item)
}

/// Replaces the due fire `item` by the first due fire of `set` after it.
pub fn due_past<S: CivilSeconds, C: Clock>(set: &S, clock: &C, item: &mut CronItem) -> Status
    ensures { FollowsDue (S.has set.now)
        item.old item.new (C.offsets clock.now) result }
{
    let Some(given) = due_of_item(*item) else {
        return Status::NotAnItem;
    };
    write_due(first_past(set, &given, clock), item)
}

/// Writes the due fires after the instant `last` and at or before `now` as far as they fit, and
/// their count.
pub fn dues_between<S: CivilSeconds, C: Clock>(
    set: &S,
    clock: &C,
    last: i64,
    now: i64,
    items: &mut [CronItem],
    count: &mut usize,
) -> Status
    ensures { RunsDueBetween (S.has set.now) last now
        items.old items.new count.new (C.offsets clock.now) result }
{
    *count = 0;
    let Ok(last) = Timestamp::from_second(last) else {
        return Status::BadInstant;
    };
    let Ok(now) = Timestamp::from_second(now) else {
        return Status::BadInstant;
    };
    fill_between::<S, Once<C>>(set, last, now, clock, items, count)
}

/// Writes the due fires after the due fire `item` and at or before the instant `now` as far as they
/// fit, and their count.
pub fn dues_past<S: CivilSeconds, C: Clock>(
    set: &S,
    clock: &C,
    item: &CronItem,
    now: i64,
    items: &mut [CronItem],
    count: &mut usize,
) -> Status
    ensures { RunsDuePast (S.has set.now) item.now now
        items.old items.new count.new (C.offsets clock.now) result }
{
    *count = 0;
    let Some(given) = due_of_item(*item) else {
        return Status::NotAnItem;
    };
    let Ok(now) = Timestamp::from_second(now) else {
        return Status::BadInstant;
    };
    fill_past::<S, Once<C>>(set, &given, now, clock, items, count)
}
