//! Days of the range, 1970-01-01 to 2100-12-31, and their numbers, computed without a loop. Day 0
//! is 1970-01-01, and months are numbered from January of the year 0.
//!
//! Years and their months are counted from March, so that a leap day ends its year. Of the years of
//! the range that 4 divides, only 2100 has no leap day.
ghost use Rattle.std.specs.Prelude.{◌≡◌, cond, nat_lt, ◌+◌, ◌-◌, ◌*◌, ◌/◌, ◌<◌, ◌≤◌};
ghost use Rattle.cron_moments.specs.Civil.{days_in_range};
ghost use Rattle.cron_moments.specs.CivilDates.{date_numbered};
ghost use Rattle.cron_moments.specs.Calendar.{day_number, first_month, length_of, months_end, rank, rank_of_date, weekday_number};

use jiff_core::civil::days_in_month;
use std::marker::Model;

/// The number of January 1970.
const FIRST_MONTH: u32 = 23_640;

/// The number of March 1969, where the first year that reaches into the range begins.
const FIRST_MARCH: u32 = 23_630;

/// How many days there are from 1969-03-01 to 1970-01-01.
const DAYS_FROM_FIRST_MARCH: u32 = 306;

/// The number of March 2100, before which the leap day of a fourth year is missing.
const MARCH_2100: u32 = 25_202;

/// How many days there are from 1970-01-01 to 2100-03-01.
const DAYS_TO_MARCH_2100: u32 = 47_541;

/// How many days a year that begins in March has before each of its months.
const DAYS_BEFORE: [u32; 12] = [0, 31, 61, 92, 122, 153, 184, 214, 245, 275, 306, 337];

// How many days the first `years` years from March 1969 on have. The third of them ends in a leap
// day, and so does each fourth one after it.
#[inline(always)]
fn days_of_years(years: u32) -> u32
    requires { years < 1000 }
    ensures { result ≡ (1461 * years + 1) / 4 }
{
    (1461 * years + 1) / 4
}

// How many days the first `months` months of a year that begins in March have.
#[inline(always)]
fn days_of_months(months: u32) -> u32
    requires { months < 12 }
    ensures { result ≡ (153 * months + 2) / 5 }
{
    DAYS_BEFORE[months as usize]
}

/// How many days a year has before each month, from January on: first without a leap day, and then
/// with one.
const DAYS_BEFORE_IN_YEAR: [u32; 24] = [
    0, 31, 59, 90, 120, 151, 181, 212, 243, 273, 304, 334, 0, 31, 60, 91, 121, 152, 182, 213, 244,
    274, 305, 335,
];

// How many days a year has before the month `place`, where 0 is January.
#[inline(always)]
fn days_before(leap_days: u32, place: u32) -> u32
    requires place { place < 12 }
    requires leap_days { leap_days ≤ 1 }
    ensures early { place < 2 → result ≡ 31 * place }
    ensures late { 2 ≤ place → result ≡ (153 * (place - 2) + 2) / 5 + 59 + leap_days }
{
    DAYS_BEFORE_IN_YEAR[(12 * leap_days + place) as usize]
}

// 1 if `number` is at least `from`, where the leap day of 2100 is missing, and else 0.
#[inline(always)]
fn missing_leap_day(number: u32, from: u32) -> u32
    ensures value { result ≡ cond (nat_lt number from) 0 1 }
    ensures bound { result ≤ 1 }
{
    if number < from { 0 } else { 1 }
}

/// The number of the day `day` of the month with the number `month`, counted from 1970-01-01.
#[inline(always)]
fn number_of(month: u32, day: u32) -> u32
    requires month { (first_month ≤ month) × (month < months_end) }
    requires day { (1 ≤ day) × (day ≤ length_of month) }
    ensures number { result ≡ day_number month day }
    ensures bound { result < days_in_range }
{
    let months = month - FIRST_MARCH;
    let first = days_of_years(months / 12) + days_of_months(months % 12);
    first + day - missing_leap_day(month, MARCH_2100) - (DAYS_FROM_FIRST_MARCH + 1)
}

/// The number of the month, and the day of the month, of the day `number` days after 1970-01-01.
#[inline(always)]
fn month_and_day(number: u32) -> (u32, u32)
    requires { number < days_in_range }
    ensures rank { rank result.0 result.1 ≡ rank_of_date (date_numbered number).0 }
    ensures month { (first_month ≤ result.0) × (result.0 < months_end) }
    ensures day { (1 ≤ result.1) × (result.1 ≤ 31) }
{
    let days = number + DAYS_FROM_FIRST_MARCH + missing_leap_day(number, DAYS_TO_MARCH_2100);
    let years = (4 * days + 2) / 1461;
    let rest = days - days_of_years(years);
    let months = (5 * rest + 2) / 153;
    (
        FIRST_MARCH + 12 * years + months,
        rest - days_of_months(months) + 1,
    )
}

/// The day of the week of a day number, from 1 for Sunday: day 0 was a Thursday. The division is of
/// a number of 16 bits, which takes fewer steps than one of 32 bits.
#[inline(always)]
pub fn weekday_of(number: u32) -> u32
    requires { number < days_in_range }
    ensures { result ≡ weekday_number (date_numbered number).0 }
{
    let number = number as u16 as u32;
    (number + 4) % 7 + 1
}

/// The length of the shortest month: each month has this many days, or more.
pub const SHORTEST: u32 = 28;

/// How many days a month has. Months are numbered from January of the year 0.
#[inline(always)]
pub fn length_of(month: u32) -> u32
    requires { month < months_end }
    ensures value { result ≡ length_of month }
    ensures bound { (28 ≤ result) × (result ≤ 31) }
{
    days_in_month((month / 12) as i16, (month % 12 + 1) as u8) as u32
}

/// A month of the range with the number of its first day, which is computed once for all its days.
#[derive(Clone, Copy)]
pub struct KnownMonth {
    month: u32,
    first: u32,
}

impl Model for KnownMonth {
    ghost use Rattle.std.specs.Prelude.{◌≡◌, ◌<◌, ◌≤◌, ℕ};
    ghost use Rattle.cron_moments.specs.Calendar.{day_number, first_month, months_end};

    ghost Value = { ℕ };

    ghost view = { λ m. m.month };

    ghost inverse = { λ month. record { month = month; first = day_number month 1 } };

    ghost invariant = { λ m. (first_month ≤ m.month)
        × (m.month < months_end)
        × (m.first ≡ day_number m.month 1) };
}

impl KnownMonth {
    ghost use Rattle.std.specs.Prelude.{◌≡◌, ◌<◌, ◌≤◌, true, false};
    ghost use Rattle.cron_moments.specs.Civil.{days_in_range};
    ghost use Rattle.cron_moments.specs.CivilDates.{date_numbered};
    ghost use Rattle.cron_moments.specs.Calendar.{day_number, first_month, length_of, months_end, rank, rank_of_date};

    /// The month with this number, counted from January of the year 0.
    #[inline(always)]
    pub fn of_number(month: u32) -> KnownMonth
        requires { (first_month ≤ month) × (month < months_end) }
        ensures { result ≡ month }
    {
        let first = number_of(month, 1);
        KnownMonth { month, first }
    }

    /// The number of the month, counted from January of the year 0.
    #[inline(always)]
    pub fn number(self) -> u32
        ensures number { result ≡ self }
        ensures bound { (first_month ≤ result) × (result < months_end) }
    {
        self.month
    }

    /// The number of the month's first day, counted from 1970-01-01.
    #[inline(always)]
    pub fn first_day(self) -> u32
        ensures number { result ≡ day_number self 1 }
        ensures bound { result < days_in_range }
        ensures month { (first_month ≤ self) × (self < months_end) }
    {
        self.number_of(1)
    }

    /// The first month of the range.
    pub fn january_1970() -> KnownMonth
        ensures { result ≡ first_month }
    {
        KnownMonth::of_number(FIRST_MONTH)
    }

    /// The month with the number `month`. It is computed only if it isn't `self`.
    #[inline(always)]
    pub fn or_numbered(self, month: u32) -> KnownMonth
        requires { (first_month ≤ month) × (month < months_end) }
        ensures { result ≡ month }
    {
        if self.month == month {
            return self;
        }
        KnownMonth::of_number(month)
    }

    /// The number of the day `day` of the month, counted from 1970-01-01.
    #[inline(always)]
    pub fn number_of(self, day: u32) -> u32
        requires { (1 ≤ day) × (day ≤ length_of self) }
        ensures number { result ≡ day_number self day }
        ensures bound { result < days_in_range }
    {
        self.first + day - 1
    }

    /// The number of the month, and the day of the month, of the day `number` days after
    /// 1970-01-01. This is fast if it is one of the first 28 days of `self`.
    #[inline(always)]
    pub fn month_and_day(self, number: u32) -> (u32, u32)
        requires { number < days_in_range }
        ensures rank { rank result.0 result.1 ≡ rank_of_date (date_numbered number).0 }
        ensures month { (first_month ≤ result.0) × (result.0 < months_end) }
        ensures day { (1 ≤ result.1) × (result.1 ≤ 31) }
    {
        if number < self.first {
            return month_and_day(number);
        }
        let before = number - self.first;
        if before < SHORTEST {
            return (self.month, before + 1);
        }
        month_and_day(number)
    }
}

/// A year of the range with the number of its first day, which is computed once for all its months.
#[derive(Clone, Copy)]
pub struct KnownYear {
    year: u32,
    first: u32,
    leap_days: u32,
}

impl Model for KnownYear {
    ghost use Rattle.std.specs.Prelude.{◌≡◌, ◌<◌, ◌≤◌, ◌+◌, ◌-◌, ◌*◌, ◌/◌, ℕ};
    ghost use Rattle.cron_moments.specs.Calendar.{leap_days_of};

    ghost Value = { ℕ };

    ghost view = { λ y. y.year };

    ghost inverse = { λ year. record {
      year = year;
      first = (1461 * (year - 1970) + 1) / 4;
      leap_days = leap_days_of year;
    } };

    ghost invariant = { λ y. (1970 ≤ y.year)
        × (y.year ≤ 2100)
        × (y.first ≡ (1461 * (y.year - 1970) + 1) / 4)
        × (y.leap_days ≡ leap_days_of y.year) };
}

impl KnownYear {
    ghost use Rattle.std.specs.Prelude.{◌≡◌, ◌<◌, ◌≤◌, ◌+◌, ◌*◌};

    /// The year with this number.
    #[inline(always)]
    pub fn of_number(year: u32) -> KnownYear
        requires { (1970 ≤ year) × (year ≤ 2100) }
        ensures { result ≡ year }
    {
        let first = (1461 * (year - 1970) + 1) / 4;
        let leap_days = if year % 4 == 0 && year < 2100 { 1 } else { 0 };
        KnownYear {
            year,
            first,
            leap_days,
        }
    }

    /// A month of the year, from 0 for January.
    #[inline(always)]
    pub fn month(self, place: u32) -> KnownMonth
        requires { place < 12 }
        ensures { result ≡ 12 * self + place }
    {
        let month = 12 * self.year + place;
        let first = self.first + days_before(self.leap_days, place);
        KnownMonth { month, first }
    }
}
