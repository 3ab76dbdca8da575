//! Many items of a walk in one call. A walk visits the items of a timeline in the order of their
//! civil seconds, ahead or back.

ghost use Rattle.jiff.specs.Words.{plain_zone};
ghost use Rattle.cron_units.specs.declared.way.Way.TheVariants.{Ahead, Back};
ghost use Rattle.cron_time.specs.Walk.Inner.Placed.{IsPlaced, Knows, stand_of};
ghost use Rattle.cron_time.specs.Walk.Rest.{rest};
ghost use Rattle.cron_c.specs.Calls.{Answers};
ghost use Rattle.cron_c.specs.Listings.{IsListed, Lists, ListsOn, walk_at};
ghost use Rattle.cron_c.specs.Structs.{sets_of};

use crate::item::{CronItem, item_of, moment_of};
use crate::schedule::{CronSchedule, fields_of};
use crate::status::Status;
use crate::zone::{CronZone, zone_in};
use cron_time::walk::resume::resume;
use cron_time::walk::state::State;
use cron_time::walk::step::step;
use cron_units::fields::ScheduleFields;
use cron_units::way::Way;
use jiff::Timestamp;
use jiff::tz::TimeZone;

// Writes the items that a walk has left as far as they fit, and returns how many it wrote. `from`
// is where the walk is.
fn fill(
    way: Way,
    fields: &ScheduleFields,
    zone: &TimeZone<'_>,
    from: State,
    items: &mut [CronItem],
) -> usize
    requires placed { IsPlaced fields.now (plain_zone zone.now) (stand_of from) }
    requires known { Knows fields.now (plain_zone zone.now) from }
    ensures { IsListed (rest way (walk_at fields.now (plain_zone zone.now) (stand_of from)))
        items.old items.new result }
{
    let mut state = from;
    for count in 0..items.len() {
        step(fields, zone, way, &mut state);
        let Some(moment) = state.answer() else {
            return count;
        };
        items[count] = item_of(&moment);
    }
    items.len()
}

fn list(
    way: Way,
    schedule: &CronSchedule,
    zone: &CronZone,
    second: i64,
    items: &mut [CronItem],
    count: &mut usize,
) -> Status
    ensures { Lists way (sets_of schedule.now) zone.now second
        items.old items.new count.new result }
{
    *count = 0;
    let Some(zone) = zone_in(zone) else {
        return Status::BadZone;
    };
    let Ok(start) = Timestamp::from_second(second) else {
        return Status::BadInstant;
    };
    *count = fill(
        way,
        &fields_of(schedule),
        &zone,
        State::starting(start),
        items,
    );
    Status::Done
}

fn list_on(
    way: Way,
    schedule: &CronSchedule,
    zone: &CronZone,
    item: &CronItem,
    items: &mut [CronItem],
    count: &mut usize,
) -> Status
    ensures { ListsOn way (sets_of schedule.now) zone.now item.now
        items.old items.new count.new result }
{
    *count = 0;
    let Some(zone) = zone_in(zone) else {
        return Status::BadZone;
    };
    let Some(given) = moment_of(*item) else {
        return Status::NotAnItem;
    };
    let fields = fields_of(schedule);
    let Some(from) = resume(&fields, &zone, &given) else {
        return Status::NotAnItem;
    };
    *count = fill(way, &fields, &zone, from, items);
    Status::Done
}

/// Writes the first items of a walk ahead that starts at the UTC second `instant` as far as they
/// fit, and their count. If it starts in a fold, the first item may be at `instant` itself or
/// before it, and later ones may be left out. Returns the number of a `Status`.
#[unsafe(no_mangle)]
pub extern "C" fn cron_c_list_after(
    schedule: &CronSchedule,
    zone: &CronZone,
    instant: i64,
    items: &mut [CronItem],
    count: &mut usize,
) -> u32
    ensures { Answers (Lists Ahead (sets_of schedule.now) zone.now instant
        items.old items.new count.new) result }
{
    list(Way::Ahead, schedule, zone, instant, items, count).code()
}

/// Writes the first items of a walk back that starts at the UTC second `instant` as far as they
/// fit, and their count. If it starts in a fold, the first item may be at `instant` itself or after
/// it, and earlier ones may be left out. Returns the number of a `Status`.
#[unsafe(no_mangle)]
pub extern "C" fn cron_c_list_before(
    schedule: &CronSchedule,
    zone: &CronZone,
    instant: i64,
    items: &mut [CronItem],
    count: &mut usize,
) -> u32
    ensures { Answers (Lists Back (sets_of schedule.now) zone.now instant
        items.old items.new count.new) result }
{
    list(Way::Back, schedule, zone, instant, items, count).code()
}

/// Writes the items after `item` as far as they fit, and writes their count. Returns the number of
/// a `Status`.
#[unsafe(no_mangle)]
pub extern "C" fn cron_c_list_next(
    schedule: &CronSchedule,
    zone: &CronZone,
    item: &CronItem,
    items: &mut [CronItem],
    count: &mut usize,
) -> u32
    ensures { Answers (ListsOn Ahead (sets_of schedule.now) zone.now item.now
        items.old items.new count.new) result }
{
    list_on(Way::Ahead, schedule, zone, item, items, count).code()
}

/// Writes the items before `item`, the nearest first, as far as they fit, and writes their count.
/// Returns the number of a `Status`.
#[unsafe(no_mangle)]
pub extern "C" fn cron_c_list_prev(
    schedule: &CronSchedule,
    zone: &CronZone,
    item: &CronItem,
    items: &mut [CronItem],
    count: &mut usize,
) -> u32
    ensures { Answers (ListsOn Back (sets_of schedule.now) zone.now item.now
        items.old items.new count.new) result }
{
    list_on(Way::Back, schedule, zone, item, items, count).code()
}
