//! Where in a year the two transitions of a rule lie.

ghost use Rattle.std.specs.Prelude.{◌≡◌, ℕ, ◌+◌, ◌-◌, ◌<◌, ◌≤◌, ℤ, pos, ◌+ℤ◌, ◌*ℤ◌, ◌≤ℤ◌, IsTrue};
ghost use Rattle.jiff_core.specs.Calendar.{IsWithin, days_of_months};
ghost use Rattle.jiff_tz.specs.PosixDay.{is_rule_day};
ghost use Rattle.cron_clocks.specs.Transitions.{IsAlwaysAmong, AlwaysTransitionsWithin, IsInside, TransitionsAreApart, week};

use cron_moments::civil::SECONDS_PER_DAY;
use jiff_tz::posix::{Day, DayTime, Dst};

/// How many seconds a day has.
pub(crate) const DAY: i64 = SECONDS_PER_DAY as i64;

const WEEK: i64 = 7 * DAY;

// How many seconds a year of 365 days has.
const YEAR: i64 = 365 * DAY;

// How many days a year of 365 days has before each month.
const DAYS_BEFORE: [u16; 12] = [0, 31, 59, 90, 120, 151, 181, 212, 243, 273, 304, 334];

// Days of a year, from the first to the last, counted from 0 for 1 January.
#[derive(Clone, Copy)]
struct DaysOfYear {
    first: u16,
    last: u16,
}

/// Seconds of a year, from the first to the last, counted from its beginning on the wall clock.
#[derive(Clone, Copy)]
pub(crate) struct SecondsOfYear {
    pub first: i64,
    pub last: i64,
}

/// Whether the two transitions lie a week or more from each other and from the edges of every year.
pub(crate) fn transitions_apart(dst: Dst) -> bool
    ensures { IsTrue result → TransitionsAreApart dst }
{
    let start = seconds_of(dst.rule.start);
    let end = seconds_of(dst.rule.end);
    if !is_week_inside(start) || !is_week_inside(end) {
        return false;
    }
    is_week_before(start, end) || is_week_before(end, start)
}

/// Whether the seconds lie a week or more from the edges of every year.
pub(crate) fn is_week_inside(seconds: SecondsOfYear) -> bool
    requires { IsWithin 100_000_000 seconds.last }
    ensures { IsTrue result → IsInside seconds.first seconds.last }
{
    WEEK <= seconds.first && seconds.last + WEEK <= YEAR
}

/// Whether `earlier` ends a week or more before `later` begins.
pub(crate) fn is_week_before(earlier: SecondsOfYear, later: SecondsOfYear) -> bool
    requires { IsWithin 100_000_000 earlier.last }
    ensures { IsTrue result → (earlier.last +ℤ week) ≤ℤ later.first }
{
    earlier.last + WEEK <= later.first
}

/// The part of a year that the transition lies in, whichever the year.
pub(crate) fn seconds_of(transition: DayTime) -> SecondsOfYear
    ensures transitions { IsInside result.first result.last
        → AlwaysTransitionsWithin result.first result.last transition }
    ensures order { result.first ≤ℤ result.last }
    ensures bound { IsWithin 100_000_000 result.last }
{
    let days = days_of(transition.date);
    SecondsOfYear {
        first: second_of(days.first, transition.time),
        last: second_of(days.last, transition.time),
    }
}

// The second of the year that is `time` seconds after the midnight of `day`.
fn second_of(day: u16, time: i32) -> i64
    requires { IsWithin 604_799 time }
    ensures { result ≡ pos day *ℤ pos 86_400 +ℤ time }
{
    i64::from(day) * DAY + i64::from(time)
}

// The days of a year that the rule's day is one of, whichever the year.
fn days_of(day: Day) -> DaysOfYear
    requires { IsTrue (is_rule_day day) }
    ensures among { result.last < 365 → IsAlwaysAmong result.first result.last day }
    ensures order { result.first ≤ result.last }
    ensures bound { result.last < 500 }
{
    match day {
        Day::JulianOne(number) => DaysOfYear {
            first: number - 1,
            last: number,
        },
        Day::JulianZero(number) => DaysOfYear {
            first: number,
            last: number,
        },
        Day::WeekdayOfMonth { month, week, .. } => days_of_week(month, week),
    }
}

// How many days a year of 365 days has before `month`. In a leap year a month begins a day later
// from March on.
fn days_before(month: u8) -> u16
    requires { (1 ≤ month) × (month ≤ 12) }
    ensures low { (y : ℤ) → result ≤ days_of_months y (month - 1) }
    ensures high { (y : ℤ) → days_of_months y (month - 1) ≤ result + 1 }
    ensures bound { result < 400 }
{
    DAYS_BEFORE[usize::from(month - 1)]
}

// The days of a year that the days of `week` of `month` are among, whichever the year. Week 5 is
// the last one, which may begin where the fourth does.
fn days_of_week(month: u8, week: u8) -> DaysOfYear
    requires month_in { (1 ≤ month) × (month ≤ 12) }
    requires week_in { (1 ≤ week) × (week ≤ 5) }
    ensures among { (weekday : ℕ)
        → IsAlwaysAmong result.first result.last (Day.WeekdayOfMonth month week weekday) }
    ensures order { result.first ≤ result.last }
    ensures bound { result.last < 500 }
{
    let days = days_before(month);
    let weeks = u16::from(week);
    DaysOfYear {
        first: days + 7 * (weeks.min(4) - 1),
        last: days + (7 * weeks).min(31),
    }
}
