//! Months of one length: in these the last day has a fixed number.
ghost use Rattle.std.specs.Prelude.{◌≡◌, ◌≤◌, ◌==◌, ◌||◌, ◌&&◌, ℕ, false};
ghost use Rattle.jiff_core.specs.Calendar.{days_in_month};
ghost use Rattle.jiff_core.specs.declared.civil.datetime.DateTime.{DateTime};
ghost use Rattle.cron_units.specs.Units.{contains};
ghost use Rattle.cron_time.specs.Matches.{matches};
ghost use Rattle.cron_comparing.specs.Inner.Lengths.{can_have, suits_year};

use cron_bits::words::Words;
use cron_unions::members::{common_members, common_years};
use cron_units::fields::ScheduleFields;
use cron_units::time_unit::layout::{bits_of_days, days_from_bits, from_bits, from_three};
use cron_units::time_unit::{DaysOfMonth, Months, TimeUnitField, Years};

/// February, in a set of months as bits. The lowest bit is for January.
const FEBRUARY: u64 = 0b10;

const MONTHS_OF_30: u64 = 0b0101_0010_1000;

const MONTHS_OF_31: u64 = 0b1010_1101_0101;

/// The leap years in a set of 64 years as bits: each fourth year from 1972 on. The lowest bit is
/// for 1970, or for 2034, 64 years later.
const LEAP_YEARS: u64 = 0x4444_4444_4444_4444;

const COMMON_YEARS: u64 = 0xbbbb_bbbb_bbbb_bbbb;

/// The years 2098, 2099 and 2100, none of them a leap year. The lowest bit is for 2098.
const LAST_YEARS: u64 = 0b111;

// The months that have `length` days in some year.
fn months_of(length: u32) -> Months
    requires { (28 ≤ length) × (length ≤ 31) }
    ensures { (m : ℕ) → 1 ≤ m → m ≤ 12 → contains result m ≡ can_have length m }
{
    match length {
        31 => from_bits(MONTHS_OF_31),
        30 => from_bits(MONTHS_OF_30),
        _ => from_bits(FEBRUARY),
    }
}

// The years in which February has `length` days. All years if `length` is 30 or 31.
fn years_of(length: u32) -> Years
    requires { (28 ≤ length) × (length ≤ 31) }
    ensures { (y : ℕ) → 1970 ≤ y → y ≤ 2100 → contains result y ≡ suits_year length y }
{
    match length {
        28 => from_three(COMMON_YEARS, COMMON_YEARS, LAST_YEARS),
        29 => from_three(LEAP_YEARS, LEAP_YEARS, 0),
        _ => from_three(u64::MAX, u64::MAX, LAST_YEARS),
    }
}

// The days of `days` as numbers, in months of `length` days: the last day, if marked, is day
// `length`.
fn days_of(days: &DaysOfMonth, length: u32) -> DaysOfMonth
    requires { (28 ≤ length) × (length ≤ 31) }
    ensures numbers { (d : ℕ) → contains result.ordinals d
        ≡ (contains days.now.ordinals d || (days.now.last_day && d == length)) }
    ensures unmarked { result.last_day ≡ false }
{
    let numbered = bits_of_days(days);
    if days.last_day() {
        days_from_bits(numbered.with(length - 1), false)
    } else {
        days_from_bits(numbered, false)
    }
}

/// A schedule that matches what `fields` matches in months of `length` days. It doesn't mark the
/// last day.
pub(crate) fn in_months_of(fields: &ScheduleFields, length: u32) -> ScheduleFields
    requires { (28 ≤ length) × (length ≤ 31) }
    ensures matches { (dt : DateTime) → matches result dt
        ≡ (matches fields.now dt && days_in_month dt.date.year dt.date.month == length) }
    ensures unmarked { result.days_of_month.last_day ≡ false }
{
    fields.years.state_facts();
    ScheduleFields {
        seconds: fields.seconds,
        minutes: fields.minutes,
        hours: fields.hours,
        days_of_month: days_of(&fields.days_of_month, length),
        months: common_members(&fields.months, &months_of(length)),
        days_of_week: fields.days_of_week,
        years: common_years(&fields.years, &years_of(length)),
    }
}
