//! The first time of a day that lies in the sets and has a reading, an offset at which the zone's
//! clock shows it. This search keeps no counts, so it passes a gap in one step. A stretch is civil
//! seconds that the zone reads at the same offsets.
ghost use Rattle.std.specs.Prelude.{◌≡◌, ℕ, ◌+◌, ◌*◌, ◌<◌, [], true, pos, IfSome, MatchOption, option_map};
ghost use Rattle.jiff.specs.Words.{plain_zone};
ghost use Rattle.cron_units.specs.Nearest.{IsNearest, LiesFrom, Precedes};
ghost use Rattle.cron_moments.specs.Civil.{days_in_range};
ghost use Rattle.cron_moments.specs.CivilDates.{date_numbered};
ghost use Rattle.cron_moments.specs.Found.{found_items};
ghost use Rattle.cron_moments.specs.Readings.{readings};
ghost use Rattle.cron_clocks.specs.Steady.{IsKnown};
ghost use Rattle.cron_time.specs.Matches.{matches_date};
ghost use Rattle.cron_time.specs.Search.Inner.DaySearch.{FindsInDay};
ghost use Rattle.cron_time.specs.Search.Inner.Numbers.{beyond, matches_second};
ghost use Rattle.cron_time.specs.Search.Inner.Gaps.{AreTogether, LeadsPast};

use crate::search::members::Members;
use crate::search::neighbours::{Neighbours, TimesOfDay};
use crate::search::reading::readings_within;
use crate::search::ways::past_below;
use cron_clocks::stretch::Stretch;
use cron_moments::civil::SECONDS_PER_DAY;
use cron_moments::readings::Found;
use cron_units::fields::ScheduleFields;
use cron_units::way::Way;
use jiff::tz::TimeZone;

// The first time of `day` past `time` and, if `time` lies in `stretch`, past the stretch. Times are
// in seconds since midnight. `None` if the day has no such time.
fn past_stretch(stretch: &Stretch, way: Way, day: u32, time: u32) -> Option<u32>
    requires in_range { day < days_in_range }
    requires time { time < 86_400 }
    ensures { MatchOption result
        ((t : ℕ) → LiesFrom way (beyond way time) t → t < 86_400
        → AreTogether stretch.now (day * 86_400 + time) (day * 86_400 + t))
        (λ next. (next < 86_400) × LiesFrom way (beyond way time) next
        × ((t : ℕ) → LiesFrom way (beyond way time) t → Precedes way t next
        → AreTogether stretch.now (day * 86_400 + time) (day * 86_400 + t))) }
{
    let midnight = day * SECONDS_PER_DAY;
    if !stretch.has(midnight + time) {
        return past_below(way, time, SECONDS_PER_DAY);
    }
    match way {
        Way::Ahead => {
            if stretch.end - midnight >= SECONDS_PER_DAY {
                return None;
            }
            Some(stretch.end - midnight)
        }
        Way::Back => {
            if stretch.first <= midnight {
                return None;
            }
            Some(stretch.first - midnight - 1)
        }
    }
}

// The next time of `day`, past `time`, that lies in the sets and may have a reading. `None` if
// there is none. `time` has no reading: this is called only in a gap.
#[inline(never)]
fn past_gap(
    fields: &ScheduleFields,
    zone: &TimeZone<'_>,
    way: Way,
    day: u32,
    time: u32,
    stretch: &Stretch,
) -> Option<u32>
    requires in_range { day < days_in_range }
    requires time { time < 86_400 }
    requires silent { readings (plain_zone zone.now) (day * 86_400 + time) ≡ [] }
    requires known { IsKnown (plain_zone zone.now) stretch.now }
    ensures leads { LeadsPast way fields.now (plain_zone zone.now) day time result }
    ensures bound { IfSome result (λ n. n < 86_400) }
{
    let from = past_stretch(stretch, way, day, time)?;
    let members = Members::of(fields);
    TimesOfDay::nearest(&members, way, from)
}

/// The readings of the first time of `day`, from `first` on, that lies in the sets and has a
/// reading; `None` if there is none. The date of `day` matches, and `first` is the nearest time in
/// the sets from `from` on.
#[inline(always)]
pub(crate) fn search_readable(
    fields: &ScheduleFields,
    zone: &TimeZone<'_>,
    way: Way,
    day: u32,
    from: u32,
    first: Option<u32>,
    stretch: &mut Stretch,
) -> Option<Found>
    requires in_range { day < days_in_range }
    requires first { IsNearest way (matches_second fields.now) (pos from) first }
    requires bound { IfSome first (λ n. n < 86_400) }
    requires matching { matches_date fields.now (date_numbered day).0 ≡ true }
    requires known { IsKnown (plain_zone zone.now) stretch.old }
    ensures found { FindsInDay way fields.now
        (plain_zone zone.now)
        day
        from
        (option_map found_items result) }
    ensures known { IsKnown (plain_zone zone.now) stretch.new }
{
    let mut next = first;
    while let Some(time) = next {
        let found = readings_within(zone, day * SECONDS_PER_DAY + time, stretch);
        if found.is_some() {
            return found;
        }
        next = past_gap(fields, zone, way, day, time, stretch);
    }
    None
}
