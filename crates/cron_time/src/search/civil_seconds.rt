//! The nearest civil second that matches. No reading is needed, so no zone is used.
ghost use Rattle.std.specs.Prelude.{◌≡◌, ◌+◌, ◌/◌, ◌%◌, ◌<◌, pos, true, IfSome};
ghost use Rattle.cron_units.specs.Nearest.{IsNearest};
ghost use Rattle.cron_moments.specs.Civil.{days_in_range, seconds_in_range};
ghost use Rattle.cron_moments.specs.CivilDates.{date_numbered};
ghost use Rattle.cron_time.specs.Matches.{is_match, matches_date};
ghost use Rattle.cron_time.specs.Search.Inner.MonthDays.{KnowsDays};
ghost use Rattle.cron_time.specs.Search.Inner.Numbers.{beyond, beyond_block, matches_second, way_of};

use crate::search::days::some_month_has_a_day;
use crate::search::members::Members;
use crate::search::minute::Minute;
use crate::search::month_days::MonthDays;
use crate::search::start_of;
use crate::search::times::time_from;
use crate::search::ways::entry;
use cron_moments::calendar::KnownMonth;
use cron_moments::civil::SECONDS_PER_DAY;
use cron_units::fields::ScheduleFields;
use cron_units::way::Way;

// The nearest match in the days past `day`, whose date matches. `BACK` repeats `way` as a constant,
// so that each direction has code of its own.
#[inline(never)]
fn match_in_days_past<const BACK: bool>(
    fields: &ScheduleFields,
    way: Way,
    day: u32,
    minute: &mut Minute,
    days: &mut MonthDays,
) -> Option<u32>
    requires tied { way ≡ way_of BACK }
    requires in_range { day < days_in_range }
    requires matching { matches_date fields.now (date_numbered day).0 ≡ true }
    requires days { KnowsDays fields.now days.old }
    ensures nearest { IsNearest way (is_match fields.now) (beyond_block way 86_400 day) result }
    ensures bound { IfSome result (λ n. n < seconds_in_range) }
    ensures days { KnowsDays fields.now days.new }
{
    let next = days.day_past(fields, way, day)?;
    let time = minute.enter_day(&Members::of(fields), way, next)?;
    Some(next * SECONDS_PER_DAY + time)
}

// The same as `match_in_days_past`. Each direction has code of its own.
#[inline(always)]
fn match_past_day(
    fields: &ScheduleFields,
    way: Way,
    day: u32,
    minute: &mut Minute,
    days: &mut MonthDays,
) -> Option<u32>
    requires in_range { day < days_in_range }
    requires matching { matches_date fields.now (date_numbered day).0 ≡ true }
    requires days { KnowsDays fields.now days.old }
    ensures nearest { IsNearest way (is_match fields.now) (beyond_block way 86_400 day) result }
    ensures bound { IfSome result (λ n. n < seconds_in_range) }
    ensures days { KnowsDays fields.now days.new }
{
    match way {
        Way::Ahead => match_in_days_past::<false>(fields, Way::Ahead, day, minute, days),
        Way::Back => match_in_days_past::<true>(fields, Way::Back, day, minute, days),
    }
}

// The nearest civil second of the range that matches, from `start` on.
fn match_from(fields: &ScheduleFields, way: Way, start: u32, days: &mut MonthDays) -> Option<u32>
    requires in_range { start < seconds_in_range }
    requires days { KnowsDays fields.now days.old }
    ensures nearest { IsNearest way (is_match fields.now) (pos start) result }
    ensures bound { IfSome result (λ n. n < seconds_in_range) }
    ensures days { KnowsDays fields.now days.new }
{
    let own = start / SECONDS_PER_DAY;
    let day = days.day_from(fields, way, own)?;
    let from = entry(way, SECONDS_PER_DAY, own, start % SECONDS_PER_DAY, day);
    if let Some(time) = time_from(fields, way, from) {
        return Some(day * SECONDS_PER_DAY + time);
    }
    match_past_day(fields, way, day, &mut Minute::epoch(), days)
}

/// The nearest civil second of the range that matches: ahead the first one at or after `from`, back
/// the last one at or before it. `None` exactly if there is none. It ends at once if no month has a
/// day of the set.
pub fn nearest_match(fields: &ScheduleFields, way: Way, from: i64) -> Option<u32>
    ensures nearest { IsNearest way (is_match fields.now) from result }
    ensures bound { IfSome result (λ n. n < seconds_in_range) }
{
    let start = start_of(way, from)?;
    let members = Members::of(fields);
    if !some_month_has_a_day(&members) {
        return None;
    }
    let mut days = MonthDays::unknown(KnownMonth::january_1970());
    match_from(fields, way, start, &mut days)
}

// The nearest match past the one at `place` of `minute`: in its own minute, hour or day, or else
// past the day.
#[inline(always)]
fn match_past_place(
    fields: &ScheduleFields,
    way: Way,
    place: u32,
    minute: &mut Minute,
    days: &mut MonthDays,
) -> Option<u32>
    requires place { place < 60 }
    requires matching { is_match fields.now (minute.old.first + place) ≡ true }
    requires days { KnowsDays fields.now days.old }
    ensures nearest { IsNearest way
        (is_match fields.now)
        (beyond way (minute.old.first + place))
        result }
    ensures bound { IfSome result (λ n. n < seconds_in_range) }
    ensures days { KnowsDays fields.now days.new }
{
    let members = Members::of(fields);
    if let Some(next) = minute.past_in_day(&members, way, place) {
        return Some(next);
    }
    match_past_day(fields, way, minute.day(), minute, days)
}

// The same as `match_past_place`, past a match `second` that isn't in `minute`.
#[inline(never)]
fn match_past_elsewhere(
    fields: &ScheduleFields,
    way: Way,
    second: u32,
    minute: &mut Minute,
    days: &mut MonthDays,
) -> Option<u32>
    requires matching { is_match fields.now second ≡ true }
    requires days { KnowsDays fields.now days.old }
    ensures nearest { IsNearest way (is_match fields.now) (beyond way second) result }
    ensures bound { IfSome result (λ n. n < seconds_in_range) }
    ensures days { KnowsDays fields.now days.new }
{
    *minute = Minute::around(second);
    match_past_place(fields, way, second % 60, minute, days)
}

/// The nearest civil second that matches past `second`, which matches. It is first looked for in
/// its own day, whose date needn't be made. The search starts with the minute and the days of a
/// month that an earlier search left, and leaves its own there.
#[inline(always)]
pub fn match_past(
    fields: &ScheduleFields,
    way: Way,
    second: u32,
    minute: &mut Minute,
    days: &mut MonthDays,
) -> Option<u32>
    requires matching { is_match fields.now second ≡ true }
    requires days { KnowsDays fields.now days.old }
    ensures nearest { IsNearest way (is_match fields.now) (beyond way second) result }
    ensures bound { IfSome result (λ n. n < seconds_in_range) }
    ensures days { KnowsDays fields.now days.new }
{
    match minute.place_of(second) {
        Some(place) => match_past_place(fields, way, place, minute, days),
        None => match_past_elsewhere(fields, way, second, minute, days),
    }
}
