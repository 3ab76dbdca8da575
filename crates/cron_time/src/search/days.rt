//! The nearest day whose year, month and day of the month lie in the sets. `None` means that there
//! is none in the direction `way`.
ghost use Rattle.std.specs.Prelude.{◌≡◌, ℕ, ◌+◌, ◌/◌, ◌%◌, ◌<◌, ◌≤◌, ◌||◌, ◌==◌, pos, Bool, IfSome, Option, option_map, true, false};
ghost use Rattle.cron_units.specs.Nearest.{IsNearest};
ghost use Rattle.cron_units.specs.Units.{contains};
ghost use Rattle.cron_moments.specs.Civil.{seconds_in_range};
ghost use Rattle.cron_moments.specs.CivilDates.{date_numbered};
ghost use Rattle.cron_time.specs.Search.Inner.Days.{day_rank, has_number, IsInRange, longest};
ghost use Rattle.cron_time.specs.Search.Inner.Numbers.{beyond, matches_day, matches_month, matches_rank};
ghost use Rattle.cron_moments.specs.Calendar.{length_of, rank_of_date, first_month, months_end};

use crate::search::members::{Members, Unit};
use crate::search::months::{Months, MonthsOfYear, Years};
use crate::search::neighbours::{Neighbours, nearest_past, past_in_parts};
use crate::search::ways::entry;
use cron_moments::calendar::{KnownMonth, SHORTEST, length_of};
use cron_moments::civil::SECONDS_PER_DAY;
use cron_units::way::Way;
use jiff_core::civil::days_in_month;

/// A day of a month. Months are numbered from January of the year 0 on.
#[derive(Clone, Copy)]
pub(crate) struct Day {
    pub(crate) month: u32,
    pub(crate) day: u32,
}

/// The day of the civil second `second`. This is fast if it is one of the first 28 days of the
/// month `known`. No set is looked up.
#[inline(always)]
pub(crate) fn day_with(known: KnownMonth, second: u32) -> Day
    requires { second < seconds_in_range }
    ensures rank { day_rank result ≡ rank_of_date (date_numbered (second / 86_400)).0 }
    ensures range { IsInRange result }
{
    let (month, day) = known.month_and_day(second / SECONDS_PER_DAY);
    Day { month, day }
}

// The length of `month` in a leap year.
fn longest_month(month: u32) -> u32
    requires { (1 ≤ month) × (month ≤ 12) }
    ensures { result ≡ longest month }
{
    days_in_month(2000, month as u8) as u32
}

// Whether some month of the set has a day number `day` in some year. Few sets need this, so it
// isn't inlined.
#[inline(never)]
fn some_month_reaches(members: &Members<'_>, day: u32) -> bool
    ensures { result ≡ false → (m : ℕ) → contains members.now.months m ≡ true → longest m < day }
{
    let mut next = members.nearest(Unit::Month, Way::Ahead, 0);
    while let Some(month) = next {
        if day <= longest_month(month) {
            return true;
        }
        next = members.nearest(Unit::Month, Way::Ahead, month + 1);
    }
    false
}

/// Returns true if some month of the set has, in some year, the least day of the set. With the last
/// day of the month it is always true, since each month has one.
#[inline(always)]
pub(crate) fn some_month_has_a_day(members: &Members<'_>) -> bool
    ensures { result ≡ false → (p : ℕ) → matches_rank members.now p ≡ false }
{
    if members.takes_last_day() {
        return true;
    }
    let Some(least) = members.nearest(Unit::Day, Way::Ahead, 0) else {
        return false;
    };
    if least <= 29 {
        return true;
    }
    some_month_reaches(members, least)
}

/// The nearest month past `month` that lies in the sets. It is first looked for in the year of
/// `month`, which isn't looked up again.
#[inline(always)]
pub(crate) fn month_past(members: &Members<'_>, way: Way, month: u32) -> Option<u32>
    requires range { (first_month ≤ month) × (month < months_end) }
    requires matching { matches_month members.now month ≡ true }
    ensures nearest { IsNearest way (matches_month members.now) (beyond way month) result }
    ensures bound { IfSome result (λ n. (first_month ≤ n) × (n < months_end)) }
{
    let rest = nearest_past::<MonthsOfYear>(members, way, month % 12);
    past_in_parts::<Years, MonthsOfYear>(members, way, 12, month, rest)
}

// The nearest day of `month`, from `from` on, whose number lies in the set. The length of the month
// matters only for numbers above 28.
#[inline(always)]
fn numbered_day(members: &Members<'_>, way: Way, month: u32, from: u32) -> Option<u32>
    requires { month < months_end }
    ensures nearest { IsNearest way
        (has_number members.now.days_of_month.ordinals (length_of month))
        (pos from)
        result }
    ensures bound { IfSome result (λ n. (1 ≤ n) × (n ≤ length_of month)) }
{
    let day = members.nearest(Unit::Day, way, from)?;
    if day <= SHORTEST {
        return Some(day);
    }
    let last = length_of(month);
    if day <= last {
        return Some(day);
    }
    match way {
        Way::Ahead => None,
        Way::Back => members.nearest(Unit::Day, way, last),
    }
}

// The nearest day from `from` on in a month of `last` days: either `numbered`, the nearest numbered
// day of the set, or the last day, which the set has too.
#[inline(always)]
fn with_last_day(way: Way, last: u32, from: u32, numbered: Option<u32>) -> Option<u32>
    requires last { 1 ≤ last }
    requires numbered { IfSome numbered (λ n. (1 ≤ n) × (n ≤ last)) }
    ensures nearest { (test : ℕ → Bool) → ((day : ℕ) → last < day → test day ≡ false)
        → IsNearest way test (pos from) numbered
        → IsNearest way (λ day. test day || day == last) (pos from) result }
    ensures bound { IfSome result (λ n. (1 ≤ n) × (n ≤ last)) }
{
    match way {
        Way::Ahead => match numbered {
            Some(day) => Some(day),
            None if from > last => None,
            None => Some(last),
        },
        Way::Back if from < last => numbered,
        Way::Back => Some(last),
    }
}

// The nearest day of `month`, from `from` on, that lies in its set.
#[inline(always)]
fn day_of_month(members: &Members<'_>, way: Way, month: u32, from: u32) -> Option<u32>
    requires { month < months_end }
    ensures nearest { IsNearest way (matches_day members.now month) (pos from) result }
    ensures bound { IfSome result (λ n. (1 ≤ n) × (n ≤ 31)) }
{
    let numbered = numbered_day(members, way, month, from);
    if members.takes_last_day() {
        return with_last_day(way, length_of(month), from, numbered);
    }
    numbered
}

// The nearest day in the sets from `from` on. `first` is the nearest month in the sets from its
// month on.
#[inline(always)]
fn nearest_in_months(members: &Members<'_>, way: Way, from: Day, first: Option<u32>) -> Option<Day>
    requires day { from.day < 100 }
    requires first { IsNearest way (matches_month members.now) (pos from.month) first }
    requires bound { IfSome first (λ n. (first_month ≤ n) × (n < months_end)) }
    ensures nearest { IsNearest way
        (matches_rank members.now)
        (pos (day_rank from))
        (option_map day_rank result) }
    ensures range { IfSome result IsInRange }
{
    let mut next = first;
    while let Some(month) = next {
        let start = entry(way, 100, from.month, from.day, month);
        if let Some(day) = day_of_month(members, way, month, start) {
            return Some(Day { month, day });
        }
        next = month_past(members, way, month);
    }
    None
}

/// The nearest day from `from` on whose year, month and day of the month lie in their sets.
pub(crate) fn nearest_day(members: &Members<'_>, way: Way, from: Day) -> Option<Day>
    requires { IsInRange from }
    ensures nearest { IsNearest way
        (matches_rank members.now)
        (pos (day_rank from))
        (option_map day_rank result) }
    ensures range { IfSome result IsInRange }
{
    let first = Months::nearest(members, way, from.month);
    nearest_in_months(members, way, from, first)
}

// `day` with its day of the month raised by one, or lowered if `way` is back. The result may be no
// day of the month, as 0 or 32.
#[inline(always)]
fn rank_past(way: Way, day: Day) -> Day
    requires { IsInRange day }
    ensures rank { pos (day_rank result) ≡ beyond way (day_rank day) }
    ensures bound { result.day < 100 }
    ensures month { result.month ≡ day.month }
{
    let Day { month, day } = day;
    match way {
        Way::Ahead => Day {
            month,
            day: day + 1,
        },
        Way::Back => Day {
            month,
            day: day - 1,
        },
    }
}

/// The nearest day past `day` that lies in the sets. The year and month of `day` lie in theirs, and
/// aren't looked up again.
#[inline(always)]
pub(crate) fn day_past(members: &Members<'_>, way: Way, day: Day) -> Option<Day>
    requires range { IsInRange day }
    requires matching { matches_month members.now day.month ≡ true }
    ensures nearest { IsNearest way
        (matches_rank members.now)
        (beyond way (day_rank day))
        (option_map day_rank result) }
    ensures range { IfSome result IsInRange }
{
    nearest_in_months(members, way, rank_past(way, day), Some(day.month))
}
