//! Whether a date or a time of day lies in the seven sets of a schedule.

ghost use Rattle.std.specs.Prelude.{◌≡◌, ℕ, ◌+◌, ◌<◌, ◌≤◌, true};
ghost use Rattle.cron_bits.specs.Words.{has_bit};
ghost use Rattle.cron_units.specs.Units.{contains};
ghost use Rattle.cron_moments.specs.Civil.{years_in_range};
ghost use Rattle.cron_time.specs.Matches.{IncludesEachDate, matches, is_candidate, matches_date, matches_day_of_month, matches_time};

use cron_bits::words::Words;
use cron_units::fields::ScheduleFields;
use cron_units::time_unit::TimeUnitSpec;
use cron_units::time_unit::layout::{bits, bits_of_days, three};
use jiff::civil::{Date, DateTime, Time};

// Whether the day of the month lies in its set: by its number, or as the last day of its month.
fn includes_day_of_month(fields: &ScheduleFields, date: Date) -> bool
    ensures { result ≡ matches_day_of_month fields.now date }
{
    let day = date.day() as u32;
    fields.days_of_month.includes(day)
        || fields.days_of_month.last_day() && day == date.days_in_month() as u32
}

// Whether year, month and day of the month lie in their sets.
fn is_candidate(fields: &ScheduleFields, date: Date) -> bool
    ensures { result ≡ is_candidate fields.now date }
{
    date.year() >= 0
        && fields.years.includes(date.year() as u32)
        && fields.months.includes(date.month() as u32)
        && includes_day_of_month(fields, date)
}

/// Whether the date lies in the sets of years, months, days of the month and days of the week.
pub fn includes_date(fields: &ScheduleFields, date: Date) -> bool
    ensures { result ≡ matches_date fields.now date }
{
    is_candidate(fields, date)
        && fields.includes_weekday(date.weekday().to_sunday_one_offset() as u32)
}

// Whether the time of day lies in the sets of hours, minutes and seconds.
fn includes_time(fields: &ScheduleFields, time: Time) -> bool
    ensures { result ≡ matches_time fields.now time }
{
    fields.hours.includes(time.hour() as u32)
        && fields.minutes.includes(time.minute() as u32)
        && fields.seconds.includes(time.second() as u32)
}

/// Whether the civil datetime lies in all seven sets.
#[tactic(auto, unfolding(crate::specs::Matches::matches))]
pub fn includes(fields: &ScheduleFields, date_time: DateTime) -> bool
    ensures { result ≡ matches fields.now date_time }
{
    includes_date(fields, date_time.date()) && includes_time(fields, date_time.time())
}

// Whether the first `count` bits are 1, and no others.
#[inline(always)]
fn is_full(word: u64, count: u32) -> bool
    requires { count ≤ 64 }
    ensures { result ≡ true → (k : ℕ) → k < count → has_bit word k ≡ true }
{
    word == u64::full().below(count)
}

// Whether each year from 1970 to 2100 lies in its set.
#[inline(always)]
fn includes_each_year(fields: &ScheduleFields) -> bool
    ensures { result ≡ true → (k : ℕ) → k < years_in_range
        → contains fields.now.years (1970 + k) ≡ true }
{
    let (first, second, third) = three(&fields.years);
    if !is_full(first, 64) {
        return false;
    }
    if !is_full(second, 64) {
        return false;
    }
    is_full(third, 3)
}

/// Returns true if the sets of years, months, days of the month and days of the week are whole.
/// Then each date from 1970 to 2100 matches.
#[inline(always)]
pub(crate) fn includes_each_date(fields: &ScheduleFields) -> bool
    ensures { result ≡ true → IncludesEachDate fields.now }
{
    if !is_full(bits_of_days(&fields.days_of_month), 31) {
        return false;
    }
    if !is_full(bits(&fields.months), 12) {
        return false;
    }
    if !is_full(bits(&fields.days_of_week), 7) {
        return false;
    }
    includes_each_year(fields)
}
