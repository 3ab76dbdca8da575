//! The nearest civil second on the timeline, past a matching one or from a number on, without
//! counts. It matches and has a reading, an offset at which the zone's clock shows it. A stretch is
//! civil seconds that the zone reads at the same offsets. `None` means that there is none.
ghost use Rattle.std.specs.Prelude.{◌≡◌, ◌+◌, ◌/◌, ◌%◌, ◌^◌, ◌<◌, ◌≤◌, pos, true, IfSome, MatchOption, option_map};
ghost use Rattle.jiff.specs.Words.{plain_zone};
ghost use Rattle.cron_moments.specs.Civil.{days_in_range, seconds_in_range};
ghost use Rattle.cron_moments.specs.CivilDates.{date_numbered};
ghost use Rattle.cron_moments.specs.Found.{found_items};
ghost use Rattle.cron_moments.specs.Readings.{readings};
ghost use Rattle.cron_clocks.specs.Steady.{IsKnown};
ghost use Rattle.cron_time.specs.Search.Inner.Blocks.{AllFail};
ghost use Rattle.cron_time.specs.Search.Inner.DaySearch.{FindsInDay, FindsPastDay, FindsTimePast};
ghost use Rattle.cron_time.specs.Search.Inner.MonthDays.{KnowsDays};
ghost use Rattle.cron_time.specs.Search.Inner.Numbers.{beyond, matches_second, stands_at, way_of};
ghost use Rattle.cron_time.specs.Matches.{matches_date};
ghost use Rattle.cron_time.specs.Search.{IsFound};

use crate::search::members::Members;
use crate::search::minute::Minute;
use crate::search::month_days::MonthDays;
use crate::search::neighbours::time_past;
use crate::search::readable::search_readable;
use crate::search::start_of;
use crate::search::times::time_from;
use crate::search::ways::{entry, extreme, past};
use cron_clocks::stretch::Stretch;
use cron_moments::civil::SECONDS_PER_DAY;
use cron_moments::readings::Found;
use cron_units::fields::ScheduleFields;
use cron_units::way::Way;
use jiff::tz::TimeZone;

// The readings of the first time of `day` past `time` that is on the timeline, or `None`. Sets
// `minute` to the minute of the first time past `time` in the sets, if there is one.
fn search_times_past(
    fields: &ScheduleFields,
    zone: &TimeZone<'_>,
    way: Way,
    day: u32,
    time: u32,
    minute: &mut Minute,
    stretch: &mut Stretch,
) -> Option<Found>
    requires in_range { day < days_in_range }
    requires time { time < 86_400 }
    requires matching { matches_date fields.now (date_numbered day).0 ≡ true }
    requires member { matches_second fields.now time ≡ true }
    requires known { IsKnown (plain_zone zone.now) stretch.old }
    ensures found { MatchOption (option_map found_items result)
        (AllFail way (stands_at fields.now (plain_zone zone.now) day) (beyond way time))
        (FindsTimePast way fields.now (plain_zone zone.now) day time) }
    ensures known { IsKnown (plain_zone zone.now) stretch.new }
{
    let from = past(way, time)?;
    let members = Members::of(fields);
    let first = time_past(&members, way, time);
    if let Some(next) = first {
        *minute = Minute::around(day * SECONDS_PER_DAY + next);
    }
    search_readable(fields, zone, way, day, from, first, stretch)
}

// The readings of the first time of `day`, from `from` on, that is on the timeline. The date of
// `day` matches.
#[inline(always)]
fn search_day_times(
    fields: &ScheduleFields,
    zone: &TimeZone<'_>,
    way: Way,
    day: u32,
    from: u32,
    stretch: &mut Stretch,
) -> Option<Found>
    requires in_range { day < days_in_range }
    requires from { from < 86_400 }
    requires matching { matches_date fields.now (date_numbered day).0 ≡ true }
    requires known { IsKnown (plain_zone zone.now) stretch.old }
    ensures found { FindsInDay way
        fields.now
        (plain_zone zone.now)
        day
        from
        (option_map found_items result) }
    ensures known { IsKnown (plain_zone zone.now) stretch.new }
{
    let first = time_from(fields, way, from);
    search_readable(fields, zone, way, day, from, first, stretch)
}

// Sets `stretch` to the stretch around `second`, if nothing has been looked up yet. Only a walk
// that goes on calls this: a single search ends before it would pay.
#[inline(never)]
fn learn(zone: &TimeZone<'_>, second: u32, stretch: &mut Stretch)
    requires in_range { second < seconds_in_range }
    requires known { IsKnown (plain_zone zone.now) stretch.old }
    ensures { IsKnown (plain_zone zone.now) stretch.new }
{
    if stretch.end == 0 {
        *stretch = Stretch::at(zone, second);
    }
}

// The readings of the nearest civil second on the timeline in the days past `own`, whose date
// matches. The search starts with the days and the stretch that an earlier search left, and leaves
// its own there. `minute` becomes the minute of the first time in the sets of the day that it comes
// to. `BACK` repeats `way` as a constant, so that each direction has code of its own.
#[inline(always)]
pub(crate) fn days_past<const BACK: bool>(
    fields: &ScheduleFields,
    zone: &TimeZone<'_>,
    way: Way,
    own: u32,
    minute: &mut Minute,
    days: &mut MonthDays,
    stretch: &mut Stretch,
) -> Option<Found>
    requires tied { way ≡ way_of BACK }
    requires in_range { own < days_in_range }
    requires matching { matches_date fields.now (date_numbered own).0 ≡ true }
    requires days { KnowsDays fields.now days.old }
    requires known { IsKnown (plain_zone zone.now) stretch.old }
    ensures finds { FindsPastDay way fields.now (plain_zone zone.now) own result }
    ensures days { KnowsDays fields.now days.new }
    ensures known { IsKnown (plain_zone zone.now) stretch.new }
{
    let mut day = own;
    while let Some(next) = days.day_past(fields, way, day) {
        let from = extreme(way, SECONDS_PER_DAY);
        let first = minute.enter_day(&Members::of(fields), way, next);
        let found = search_readable(fields, zone, way, next, from, first, stretch);
        if found.is_some() {
            return found;
        }
        day = next;
    }
    None
}

// The same as `days_past`. Each direction has code of its own.
#[inline(always)]
fn days_past_either_way(
    fields: &ScheduleFields,
    zone: &TimeZone<'_>,
    way: Way,
    own: u32,
    minute: &mut Minute,
    days: &mut MonthDays,
    stretch: &mut Stretch,
) -> Option<Found>
    requires in_range { own < days_in_range }
    requires matching { matches_date fields.now (date_numbered own).0 ≡ true }
    requires days { KnowsDays fields.now days.old }
    requires known { IsKnown (plain_zone zone.now) stretch.old }
    ensures finds { FindsPastDay way fields.now (plain_zone zone.now) own result }
    ensures days { KnowsDays fields.now days.new }
    ensures known { IsKnown (plain_zone zone.now) stretch.new }
{
    match way {
        Way::Ahead => days_past::<false>(fields, zone, Way::Ahead, own, minute, days, stretch),
        Way::Back => days_past::<true>(fields, zone, Way::Back, own, minute, days, stretch),
    }
}

/// The readings of `second`, or `None` if it isn't in the stretch or has none.
#[inline(always)]
pub(crate) fn readings_in(_zone: &TimeZone<'_>, second: u32, stretch: &Stretch) -> Option<Found>
    requires known { IsKnown (plain_zone _zone.now) stretch.now }
    ensures { IfSome result (λ f. found_items f ≡ readings (plain_zone _zone.now) second) }
{
    if !stretch.has(second) {
        return None;
    }
    stretch.readings(second)
}

/// The nearest civil second on the timeline past `second`, which matches. It is first looked for in
/// its own day, whose date needn't be made, and then in the days past it. The search starts with
/// the days of a month and the stretch that an earlier search left, and leaves its own there.
/// `minute` may be any minute, before and after.
#[inline(always)]
pub fn search_past(
    fields: &ScheduleFields,
    zone: &TimeZone<'_>,
    way: Way,
    second: u32,
    minute: &mut Minute,
    days: &mut MonthDays,
    stretch: &mut Stretch,
) -> Option<Found>
    requires in_range { second < seconds_in_range }
    requires matching { matches_date fields.now (date_numbered (second / 86_400)).0 ≡ true }
    requires member { matches_second fields.now (second % 86_400) ≡ true }
    requires days { KnowsDays fields.now days.old }
    requires known { IsKnown (plain_zone zone.now) stretch.old }
    ensures found { IsFound way
        fields.now
        (plain_zone zone.now)
        (beyond way second)
        (option_map found_items result) }
    ensures days { KnowsDays fields.now days.new }
    ensures known { IsKnown (plain_zone zone.now) stretch.new }
{
    learn(zone, second, stretch);
    let day = second / SECONDS_PER_DAY;
    let time = second % SECONDS_PER_DAY;
    let found = search_times_past(fields, zone, way, day, time, minute, stretch);
    if found.is_some() {
        return found;
    }
    days_past_either_way(fields, zone, way, day, minute, days, stretch)
}

// The nearest civil second on the timeline from `start` on. Searches the first day whose date
// matches, the day of `start` only from that time on, and then the days past it.
fn days_from<const BACK: bool>(
    fields: &ScheduleFields,
    zone: &TimeZone<'_>,
    way: Way,
    start: u32,
    minute: &mut Minute,
    days: &mut MonthDays,
    stretch: &mut Stretch,
) -> Option<Found>
    requires tied { way ≡ way_of BACK }
    requires in_range { start < seconds_in_range }
    requires days { KnowsDays fields.now days.old }
    requires known { IsKnown (plain_zone zone.now) stretch.old }
    ensures found { IsFound way fields.now
        (plain_zone zone.now)
        (pos start)
        (option_map found_items result) }
    ensures days { KnowsDays fields.now days.new }
    ensures known { IsKnown (plain_zone zone.now) stretch.new }
{
    let own = start / SECONDS_PER_DAY;
    let day = days.day_from(fields, way, own)?;
    let from = entry(way, SECONDS_PER_DAY, own, start % SECONDS_PER_DAY, day);
    let found = search_day_times(fields, zone, way, day, from, stretch);
    if found.is_some() {
        return found;
    }
    days_past::<BACK>(fields, zone, way, day, minute, days, stretch)
}

/// The nearest civil second on the timeline from the number `from` on. The search starts with the
/// days of a month and the stretch that an earlier search left, and leaves its own there. `minute`
/// may be any minute, before and after.
pub fn search_onward(
    fields: &ScheduleFields,
    zone: &TimeZone<'_>,
    way: Way,
    from: i64,
    minute: &mut Minute,
    days: &mut MonthDays,
    stretch: &mut Stretch,
) -> Option<Found>
    requires days { KnowsDays fields.now days.old }
    requires known { IsKnown (plain_zone zone.now) stretch.old }
    ensures found { IsFound way fields.now
        (plain_zone zone.now)
        from
        (option_map found_items result) }
    ensures days { KnowsDays fields.now days.new }
    ensures known { IsKnown (plain_zone zone.now) stretch.new }
{
    let start = start_of(way, from)?;
    match way {
        Way::Ahead => days_from::<false>(fields, zone, Way::Ahead, start, minute, days, stretch),
        Way::Back => days_from::<true>(fields, zone, Way::Back, start, minute, days, stretch),
    }
}
