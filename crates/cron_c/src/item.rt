//! An item as plain numbers. An item is a civil second that matches a schedule, with an instant
//! when the clock of a zone shows it.

ghost use Rattle.std.specs.Prelude.{◌≡◌, MatchOption};
ghost use Rattle.cron_c.specs.Arrays.{Writes};
ghost use Rattle.cron_c.specs.Structs.{IsItem, IsItemInRange, IsNoItem};

use crate::status::Status;
use cron_moments::moment::{Moment, instant_of};
use cron_moments::parts::moment_at;
use jiff::tz::Offset;

/// An item or a due fire: its instant in seconds since 1970-01-01T00:00:00Z, and how many seconds
/// its clock is ahead of UTC. What the clock shows is their sum. In a due fire `reserved` is the
/// number of seconds from the nominal time to what the clock shows. In any other item it is 0, and
/// a struct with another number there is no item.
#[repr(C)]
#[derive(Clone, Copy)]
pub struct CronItem {
    pub instant: i64,
    pub offset: i32,
    pub reserved: u32,
}

/// The struct that holds `moment` as an item.
pub fn item_of(moment: &Moment) -> CronItem
    ensures { IsItem moment.now result }
{
    CronItem {
        instant: instant_of(moment),
        offset: moment.offset().seconds(),
        reserved: 0,
    }
}

/// Writes the item `found`, or returns `NoItem` if it is `None`.
pub fn write_found(found: Option<Moment>, item: &mut CronItem) -> Status
    ensures { Writes IsItem found item.old item.new result }
{
    let Some(moment) = found else {
        return Status::NoItem;
    };
    *item = item_of(&moment);
    Status::Done
}

/// The moment in `item`. `None` if the offset is longer than 25:59:59, the clock shows a civil
/// second outside 1970 to 2100, or `reserved` isn't 0.
pub fn moment_of(item: CronItem) -> Option<Moment>
    ensures { MatchOption result
        (IsNoItem item)
        (λ r. IsItemInRange r item) }
{
    if item.reserved != 0 {
        return None;
    }
    let Ok(offset) = Offset::from_seconds(item.offset) else {
        return None;
    };
    moment_at(item.instant, offset)
}
