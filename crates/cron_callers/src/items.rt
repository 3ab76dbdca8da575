//! Items of a walk, in the order of the timeline.

ghost use Rattle.std.specs.Prelude.{◌≡◌, IfOk, length, take};
ghost use Rattle.std.specs.List.{take_while};
ghost use Rattle.jiff.specs.Words.{plain_zone};
ghost use Rattle.cron_callers.specs.Items.{is_through, items_ahead, items_back};

use cron::Schedule;
use cron::schedule::Moment;
use jiff::Timestamp;
use jiff::civil::Date;
use jiff::tz::TimeZone;
use std::alloc::{AllocError, Global};

/// The first `count` items of a walk ahead from `start`, or fewer if the timeline ends. If `start`
/// is in a fold, they may leave out later instants, or begin with `start` or an instant before it.
pub fn first_items(
    alloc: Global,
    schedule: &Schedule,
    start: Timestamp,
    zone: &TimeZone<'_>,
    count: usize,
) -> Result<Vec<Moment>, AllocError>
    ensures { IfOk result (λ listed. listed.items
        ≡ take count (items_ahead schedule.now.sets (plain_zone zone.now) start.nanosecond)) }
{
    schedule.after(start, zone).take(count).collect(alloc)
}

/// The first `count` items of a walk back from `start`, or fewer if the timeline ends. The first is
/// the last item that the clock shows before `start`. If `start` is in a fold, they may leave out
/// earlier instants, or begin with `start` or a later instant.
pub fn last_items(
    alloc: Global,
    schedule: &Schedule,
    start: Timestamp,
    zone: &TimeZone<'_>,
    count: usize,
) -> Result<Vec<Moment>, AllocError>
    ensures { IfOk result (λ listed. listed.items
        ≡ take count (items_back schedule.now.sets (plain_zone zone.now) start.nanosecond)) }
{
    schedule.after(start, zone).rev().take(count).collect(alloc)
}

/// The number of items of a walk ahead from `start`, at most `most`. If `start` is in a fold, later
/// instants may be left out, and `start` or an instant before it may be counted.
pub fn count_items(schedule: &Schedule, start: Timestamp, zone: &TimeZone<'_>, most: usize) -> usize
    ensures { result ≡ length
        (take most (items_ahead schedule.now.sets (plain_zone zone.now) start.nanosecond)) }
{
    schedule.after(start, zone).take(most).count()
}

/// The items of `date`, in the order that the clock shows them: those after `eve`, as long as they
/// aren't past the date. They are only the date's items if `eve` is the instant when the clock
/// shows the last second before the date, outside a fold. In a fold of the date their instants step
/// back.
pub fn items_of_day(
    alloc: Global,
    schedule: &Schedule,
    eve: Timestamp,
    date: Date,
    zone: &TimeZone<'_>,
) -> Result<Vec<Moment>, AllocError>
    ensures { IfOk result (λ listed. listed.items ≡ take_while (is_through date)
        (items_ahead schedule.now.sets (plain_zone zone.now) eve.nanosecond)) }
{
    let mut listed = Vec::new(alloc);
    let last = date.to_plain().to_unix_epoch_day();
    for item in schedule.after(eve, zone) {
        if item.datetime().date().to_plain().to_unix_epoch_day() > last {
            break;
        }
        listed.push(item)?;
    }
    Ok(listed)
}
