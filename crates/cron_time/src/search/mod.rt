//! The search for the nearest civil second on a timeline, field by field.
//!
//! A civil second is on the timeline if it matches and has a reading, an offset at which the zone's
//! clock shows it. A candidate is a day whose year, month and day of the month lie in their sets.
//! The nearest is the first one in the direction `way`. `past` a number leaves it out, and `from`
//! it includes it. `None` means that there is none.
ghost use Rattle.std.specs.Prelude.{◌≡◌, ◌+◌, ◌/◌, ◌%◌, ◌^◌, ◌<◌, pos, true, IfSome, MatchOption, option_map};
ghost use Rattle.jiff.specs.Words.{plain_zone};
ghost use Rattle.cron_units.specs.Nearest.{LiesFrom, IsNearest};
ghost use Rattle.cron_moments.specs.Civil.{days_in_range, seconds_in_range};
ghost use Rattle.cron_moments.specs.CivilDates.{date_numbered};
ghost use Rattle.cron_time.specs.Search.Counts.{conversions, days_of};
ghost use Rattle.cron_moments.specs.Found.{found_items, second_of};
ghost use Rattle.cron_time.specs.Search.Inner.DaySearch.{candidate_day, FindsInDay, Finds, IsAskedIn, Searches, time_of};
ghost use Rattle.cron_time.specs.Search.Inner.Days.{number_of, day_rank, IsCandidate, IsInRange};
ghost use Rattle.cron_time.specs.Search.Inner.Inquired.{IsSame};
ghost use Rattle.cron_time.specs.Search.Inner.Numbers.{matches_rank, matches_second, way_of};
ghost use Rattle.cron_time.specs.Search.Inner.Starts.{LiesOutside, Starts};
ghost use Rattle.cron_time.specs.Search.Inner.Tally.{Adds, IsPassedTo};
ghost use Rattle.cron_time.specs.Matches.{matches_date};
ghost use Rattle.cron_time.specs.Search.{IsFound};

pub mod answers;
pub mod civil_seconds;
mod counter;
pub(crate) mod days;
pub(crate) mod inquiry;
mod leap_days;
pub(crate) mod members;
pub mod minute;
pub mod month_days;
mod months;
mod neighbours;
pub mod onward;
mod readable;
pub(crate) mod reading;
pub mod survey;
pub mod times;
mod ways;

use crate::search::answers::Search;
use crate::search::days::{Day, day_past, day_with, nearest_day, some_month_has_a_day};
use crate::search::inquiry::Inquiry;
use crate::search::neighbours::{Neighbours, TimesOfDay, time_past};
use crate::search::ways::entry;
use cron_moments::civil::{SECONDS, SECONDS_PER_DAY};
use cron_moments::readings::Found;
use cron_units::fields::ScheduleFields;
use cron_units::way::Way;
use jiff::tz::TimeZone;

/// The readings of the first time of `day`, from `first` on, that lies in the sets and has a
/// reading. The date of `day` matches, and `first` is the nearest time in the sets from `from` on.
/// Times are in seconds since midnight.
#[inline(always)]
pub(crate) fn search_times(
    inquiry: &mut Inquiry<'_>,
    way: Way,
    day: u32,
    from: u32,
    first: Option<u32>,
) -> Option<Found>
    requires in_range { day < days_in_range }
    requires first { IsNearest way (matches_second inquiry.old.sets) (pos from) first }
    requires bound { IfSome first (λ n. n < 86_400) }
    requires matching { matches_date inquiry.old.sets (date_numbered day).0 ≡ true }
    requires room { inquiry.old.conversions < 2 ^ 62 }
    ensures found { FindsInDay way
        inquiry.old.sets
        inquiry.old.zone
        day
        from
        (option_map found_items result) }
    ensures same { IsSame inquiry.old inquiry.new }
    ensures days { inquiry.new.days ≡ inquiry.old.days }
    ensures conversions { Adds
        86_400
        (IsPassedTo way (matches_second inquiry.old.sets) (pos from) (time_of result))
        inquiry.old.conversions
        inquiry.new.conversions }
{
    let mut next = first;
    while let Some(time) = next {
        let found = inquiry.readings(day * SECONDS_PER_DAY + time);
        if found.is_some() {
            return found;
        }
        next = time_past(&inquiry.members(), way, time);
    }
    None
}

// Makes the date of the candidate `day`. If its weekday lies in its set, returns the readings of
// its first time on the timeline. On the day of `start` it searches from that time on only.
#[inline(always)]
fn search_day(inquiry: &mut Inquiry<'_>, way: Way, start: u32, day: Day) -> Option<Found>
    requires range { IsInRange day }
    requires candidate { matches_rank inquiry.old.sets (day_rank day) ≡ true }
    requires lies { LiesFrom way (pos (start / 86_400)) (number_of day) }
    requires days_room { inquiry.old.days < 2 ^ 62 }
    requires room { inquiry.old.conversions < 2 ^ 62 }
    ensures found { Finds way
        inquiry.old.sets
        inquiry.old.zone
        (pos start)
        (number_of day)
        (option_map found_items result) }
    ensures same { IsSame inquiry.old inquiry.new }
    ensures days { inquiry.new.days ≡ inquiry.old.days + 1 }
    ensures conversions { Adds
        seconds_in_range
        (IsAskedIn way inquiry.old.sets (pos start) (number_of day) (second_of result))
        inquiry.old.conversions
        inquiry.new.conversions }
{
    let number = inquiry.matching_day(day.month, day.day)?;
    let from = entry(
        way,
        SECONDS_PER_DAY,
        start / SECONDS_PER_DAY,
        start % SECONDS_PER_DAY,
        number,
    );
    let first = TimesOfDay::nearest(&inquiry.members(), way, from);
    search_times(inquiry, way, number, from, first)
}

/// Searches the candidates from `first` on, and returns the readings of the first time on the
/// timeline. `first` is the nearest candidate from the day of `start` on. `BACK` repeats `way` as a
/// constant, so that each direction has code of its own.
pub(crate) fn search_candidates<const BACK: bool>(
    inquiry: &mut Inquiry<'_>,
    way: Way,
    start: u32,
    first: Option<Day>,
) -> Option<Found>
    requires tied { way ≡ way_of BACK }
    requires start { start < seconds_in_range }
    requires first { IsNearest way
        (candidate_day inquiry.old.sets)
        (pos (start / 86_400))
        (option_map number_of first) }
    requires passes { IfSome first (IsCandidate inquiry.old.sets) }
    requires days_room { inquiry.old.days < 2 ^ 60 }
    requires room { inquiry.old.conversions < 2 ^ 60 }
    ensures { Searches way start result inquiry.old inquiry.new }
{
    let mut next = first;
    while let Some(day) = next {
        let found = search_day(inquiry, way, start, day);
        if found.is_some() {
            return found;
        }
        next = day_past(&inquiry.members(), way, day);
    }
    None
}

// Searches the candidates from the day of `start` on, and returns the readings of the first time on
// the timeline. It ends at once if no month has a day of the set.
#[inline(always)]
fn search_days<const BACK: bool>(inquiry: &mut Inquiry<'_>, way: Way, start: u32) -> Option<Found>
    requires tied { way ≡ way_of BACK }
    requires start { start < seconds_in_range }
    requires days_room { inquiry.old.days < 2 ^ 60 }
    requires room { inquiry.old.conversions < 2 ^ 60 }
    ensures { Searches way start result inquiry.old inquiry.new }
{
    let members = inquiry.members();
    if !some_month_has_a_day(&members) {
        return None;
    }
    let first = nearest_day(&members, way, day_with(inquiry.month(), start));
    search_candidates::<BACK>(inquiry, way, start, first)
}

// The same as `search_days`. Each direction has code of its own.
fn search_days_either_way(inquiry: &mut Inquiry<'_>, way: Way, start: u32) -> Option<Found>
    requires start { start < seconds_in_range }
    requires days_room { inquiry.old.days < 2 ^ 60 }
    requires room { inquiry.old.conversions < 2 ^ 60 }
    ensures { Searches way start result inquiry.old inquiry.new }
{
    match way {
        Way::Ahead => search_days::<false>(inquiry, Way::Ahead, start),
        Way::Back => search_days::<true>(inquiry, Way::Back, start),
    }
}

/// The civil second of the range where a search from the number `from` starts. `None` if the range
/// has none that way.
pub(crate) fn start_of(way: Way, from: i64) -> Option<u32>
    ensures { MatchOption result (LiesOutside way from) (Starts way from) }
{
    match way {
        Way::Ahead => {
            if from >= SECONDS {
                return None;
            }
            Some(from.max(0) as u32)
        }
        Way::Back => {
            if from < 0 {
                return None;
            }
            Some(from.min(SECONDS - 1) as u32)
        }
    }
}

/// The nearest civil second on the timeline from the number `from` on, with its readings.
pub(crate) fn search_from(inquiry: &mut Inquiry<'_>, way: Way, from: i64) -> Option<Found>
    requires days_room { inquiry.old.days < 2 ^ 60 }
    requires room { inquiry.old.conversions < 2 ^ 60 }
    ensures found { IsFound way
        inquiry.old.sets
        inquiry.old.zone
        from
        (option_map found_items result) }
    ensures same { IsSame inquiry.old inquiry.new }
    ensures days { inquiry.new.days
        ≡ inquiry.old.days + days_of way inquiry.old.sets from (second_of result) }
    ensures conversions { inquiry.new.conversions
        ≡ inquiry.old.conversions
        + conversions way inquiry.old.sets inquiry.old.zone from (second_of result) }
{
    let start = start_of(way, from)?;
    search_days_either_way(inquiry, way, start)
}

/// The nearest civil second on the timeline from the number `from` on, with its readings. Returns
/// also how many dates were made and tested, and how often readings were looked up.
pub fn search(fields: &ScheduleFields, zone: &TimeZone<'_>, way: Way, from: i64) -> Search
    ensures found { IsFound way
        fields.now
        (plain_zone zone.now)
        from
        (option_map found_items result.found) }
    ensures days { result.days ≡ days_of way fields.now from (second_of result.found) }
    ensures conversions { result.conversions
        ≡ conversions way fields.now (plain_zone zone.now) from (second_of result.found) }
{
    let mut inquiry = Inquiry::new(fields, zone);
    let found = search_from(&mut inquiry, way, from);
    Search {
        found,
        days: inquiry.days() as u32,
        conversions: inquiry.conversions(),
    }
}
