//! A due fire as plain numbers. A due fire is a match that fires once: at the first instant at
//! which the clock shows it or a later time.

ghost use Rattle.std.specs.Prelude.{◌≡◌, ◌+ℤ◌, ◌-ℤ◌, pos, MatchOption};
ghost use Rattle.cron_c.specs.Arrays.{Writes};
ghost use Rattle.cron_c.specs.Dues.{IsDueInRange, IsDueItem, IsNoDue};

use crate::item::CronItem;
use crate::status::Status;
use cron_dues::fire::{DueFire, due_second, fire_of_parts};
use cron_moments::civil::SECONDS;
use jiff::tz::Offset;

/// The struct that holds the due fire `fire`.
pub fn item_of_due(fire: &DueFire) -> CronItem
    ensures { IsDueItem fire.now result }
{
    CronItem {
        instant: due_second(fire),
        offset: fire.offset().seconds(),
        reserved: fire.seconds_past(),
    }
}

/// Writes the due fire `found`, or returns `NoItem` if it is `None`.
pub fn write_due(found: Option<DueFire>, item: &mut CronItem) -> Status
    ensures { Writes IsDueItem found item.old item.new result }
{
    let Some(fire) = found else {
        return Status::NoItem;
    };
    *item = item_of_due(&fire);
    Status::Done
}

// The civil second that the due fire `item` is for, in seconds since 1970-01-01 00:00:00. It may be
// outside 1970 to 2100.
fn nominal_second(item: CronItem) -> i128
    ensures { result ≡ item.instant +ℤ item.offset -ℤ pos item.reserved }
{
    item.instant as i128 + item.offset as i128 - item.reserved as i128
}

/// The due fire in `item`. `None` if the offset is longer than 25:59:59, the clock shows a time
/// more than 187,198 seconds past the nominal time, or the nominal time is outside 1970 to 2100.
pub fn due_of_item(item: CronItem) -> Option<DueFire>
    ensures { MatchOption result
        (IsNoDue item)
        (λ d. IsDueInRange d item) }
{
    let Ok(offset) = Offset::from_seconds(item.offset) else {
        return None;
    };
    let nominal = nominal_second(item);
    if nominal < 0 {
        return None;
    }
    if nominal >= SECONDS as i128 {
        return None;
    }
    fire_of_parts(nominal as u32, item.reserved, offset)
}
