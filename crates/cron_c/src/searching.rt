//! The first answer of a walk that starts at an instant, or goes on from an item. A walk visits the
//! items of a timeline in the order of their civil seconds, ahead or back.

ghost use Rattle.std.specs.Prelude.{◌≡◌, MatchOption};
ghost use Rattle.jiff.specs.Words.{plain_zone};
ghost use Rattle.cron_units.specs.declared.way.Way.TheVariants.{Ahead, Back};
ghost use Rattle.cron_time.specs.Walk.Cursor.{Start, Walk, step};
ghost use Rattle.cron_time.specs.Walk.Resume.{IsAbsent, IsResumed};
ghost use Rattle.cron_c.specs.Calls.{Answers, Searches, Follows};
ghost use Rattle.cron_c.specs.Structs.{sets_of};

use crate::item::{CronItem, item_of, moment_of};
use crate::schedule::{CronSchedule, fields_of};
use crate::status::Status;
use crate::zone::{CronZone, zone_in};
use cron_moments::moment::Moment;
use cron_time::walk::resume::resume;
use cron_time::walk::state::State;
use cron_time::walk::step::step;
use cron_units::way::Way;
use jiff::Timestamp;
use jiff::tz::TimeZone;

// The first item of a walk that starts at `start`, ahead or back by `way`. `None` if there is none.
fn first(way: Way, schedule: &CronSchedule, zone: &TimeZone<'_>, start: Timestamp) -> Option<Moment>
    ensures { result ≡ (step way (record {
      sets = sets_of schedule.now;
      zone = plain_zone zone.now;
      cursor = Start start.nanosecond;
    })).answer }
{
    let fields = fields_of(schedule);
    let mut state = State::starting(start);
    step(&fields, zone, way, &mut state);
    state.answer()
}

// The item after `item`, or before it with `Way::Back`. `Some(None)` if `item` is the last one on
// that side, and `None` if it is no item of this timeline.
fn beside(
    way: Way,
    schedule: &CronSchedule,
    zone: &TimeZone<'_>,
    item: &Moment,
) -> Option<Option<Moment>>
    ensures { MatchOption result
        (IsAbsent (sets_of schedule.now) (plain_zone zone.now) item.now)
        (λ answer. (w : Walk)
        × IsResumed (sets_of schedule.now) (plain_zone zone.now) item.now w
        × (answer ≡ (step way w).answer)) }
{
    let fields = fields_of(schedule);
    match resume(&fields, zone, item) {
        Some(given) => {
            let mut state = given;
            step(&fields, zone, way, &mut state);
            Some(state.answer())
        }
        None => None,
    }
}

fn search(
    way: Way,
    schedule: &CronSchedule,
    zone: &CronZone,
    second: i64,
    item: &mut CronItem,
) -> Status
    ensures { Searches way (sets_of schedule.now) zone.now second item.old item.new result }
{
    let Some(zone) = zone_in(zone) else {
        return Status::BadZone;
    };
    let Ok(start) = Timestamp::from_second(second) else {
        return Status::BadInstant;
    };
    let Some(found) = first(way, schedule, &zone, start) else {
        return Status::NoItem;
    };
    *item = item_of(&found);
    Status::Done
}

fn follow(way: Way, schedule: &CronSchedule, zone: &CronZone, item: &mut CronItem) -> Status
    ensures { Follows way (sets_of schedule.now) zone.now item.old item.new result }
{
    let Some(zone) = zone_in(zone) else {
        return Status::BadZone;
    };
    let Some(given) = moment_of(*item) else {
        return Status::NotAnItem;
    };
    let Some(answer) = beside(way, schedule, &zone, &given) else {
        return Status::NotAnItem;
    };
    let Some(found) = answer else {
        return Status::NoItem;
    };
    *item = item_of(&found);
    Status::Done
}

/// Writes the first item of a walk ahead that starts at `instant`, which is in seconds since
/// 1970-01-01T00:00:00Z. In a fold that item may be at `instant` itself, or before it. Returns the
/// number of a `Status`.
#[unsafe(no_mangle)]
pub extern "C" fn cron_c_after(
    schedule: &CronSchedule,
    zone: &CronZone,
    instant: i64,
    item: &mut CronItem,
) -> u32
    ensures { Answers (Searches Ahead (sets_of schedule.now) zone.now instant
        item.old item.new) result }
{
    search(Way::Ahead, schedule, zone, instant, item).code()
}

/// Writes the first item of a walk back that starts at `instant`, which is in seconds since
/// 1970-01-01T00:00:00Z. In a fold that item may be at `instant` itself, or after it. Returns the
/// number of a `Status`.
#[unsafe(no_mangle)]
pub extern "C" fn cron_c_before(
    schedule: &CronSchedule,
    zone: &CronZone,
    instant: i64,
    item: &mut CronItem,
) -> u32
    ensures { Answers (Searches Back (sets_of schedule.now) zone.now instant
        item.old item.new) result }
{
    search(Way::Back, schedule, zone, instant, item).code()
}

/// Replaces `item` by the item after it, also if both are readings of one civil second in a fold.
/// Returns the number of a `Status`.
#[unsafe(no_mangle)]
pub extern "C" fn cron_c_next(schedule: &CronSchedule, zone: &CronZone, item: &mut CronItem) -> u32
    ensures { Answers (Follows Ahead (sets_of schedule.now) zone.now item.old item.new) result }
{
    follow(Way::Ahead, schedule, zone, item).code()
}

/// Replaces `item` by the item before it, also if both are readings of one civil second in a fold.
/// Returns the number of a `Status`.
#[unsafe(no_mangle)]
pub extern "C" fn cron_c_prev(schedule: &CronSchedule, zone: &CronZone, item: &mut CronItem) -> u32
    ensures { Answers (Follows Back (sets_of schedule.now) zone.now item.old item.new) result }
{
    follow(Way::Back, schedule, zone, item).code()
}
