//! The nearest time of day, searched by hour, then by minute and second, with at most 7 look-ups of
//! a member. By hour and minute, then second, it would be up to 8.

ghost use Rattle.std.specs.Prelude.{◌<◌, ◌≤◌, pos, IfSome, MatchOption, option_map};
ghost use Rattle.cron_units.specs.Nearest.{IsNearest};
ghost use Rattle.cron_units.specs.Sets.{AreSets};
ghost use Rattle.cron_time.specs.Search.Inner.Numbers.{matches_second};
ghost use Rattle.cron_time.specs.Search.Times.{IsNearestTime, time_of_parts};

use crate::search::answers::TimeFound;
use crate::search::counter::Questions;
use crate::search::members::Members;
use crate::search::minute::Minute;
use crate::search::neighbours::{Neighbours, TimesOfDay};
use crate::search::ways::extreme;
use cron_moments::civil::SECONDS_PER_DAY;
use cron_units::fields::ScheduleFields;
use cron_units::way::Way;

/// The nearest time of day, from the given one on, whose hour, minute and second lie in their sets.
pub fn nearest_time(
    fields: &ScheduleFields,
    way: Way,
    hour: u32,
    minute: u32,
    second: u32,
) -> TimeFound
    requires sets { AreSets fields.now }
    requires hour { hour < 24 }
    requires minute { minute < 60 }
    requires second { second < 60 }
    ensures time { IsNearestTime way
        fields.now
        (time_of_parts (hour, minute, second))
        (option_map time_of_parts result.time) }
    ensures questions { MatchOption result.time
        ((1 ≤ result.questions) × (result.questions ≤ 7))
        (λ time. (3 ≤ result.questions) × (result.questions ≤ 7)) }
{
    let members = Members::of(fields);
    let mut counter = Questions { asked: 0 };
    let from = hour * 3600 + minute * 60 + second;
    let found = TimesOfDay::nearest_counted(&members, &mut counter, way, from);
    let questions = counter.asked as u8;
    match found {
        Some(time) => TimeFound {
            time: Some((time / 3600, time / 60 % 60, time % 60)),
            questions,
        },
        None => TimeFound {
            time: None,
            questions,
        },
    }
}

/// The nearest time of day in the sets, from `from` on, in seconds since midnight. If `from` is the
/// outermost time, 00:00:00 ahead or 23:59:59 back, no part is compared. `None` if no time is
/// there.
#[inline(always)]
pub(crate) fn time_from(fields: &ScheduleFields, way: Way, from: u32) -> Option<u32>
    requires { from < 86_400 }
    ensures nearest { IsNearest way (matches_second fields.now) (pos from) result }
    ensures bound { IfSome result (λ n. n < 86_400) }
{
    let members = Members::of(fields);
    if from == extreme(way, SECONDS_PER_DAY) {
        return Minute::epoch().enter_day(&members, way, 0);
    }
    TimesOfDay::nearest(&members, way, from)
}
