//! One day, week or month in so many.
ghost use Rattle.std.specs.Prelude.{◌≡◌, ◌<◌, ◌≤◌, ◌↔◌, ℕ, MatchResult, nat_abs};
ghost use Rattle.jiff_core.specs.Date.{epoch_day};
ghost use Rattle.cron_moments.specs.Civil.{days_in_range};
ghost use Rattle.cron_moments.specs.Calendar.{first_month, months_end};
ghost use Rattle.cron_days.specs.Rules.{is_steps_apart, month_of, place_of};
ghost use Rattle.cron_days.specs.Refusals.{RefusesEvery};
ghost use Rattle.cron_days.specs.Inner.Starts.{IsStart};
ghost use Rattle.cron_days.specs.declared.period.Period.TheVariants.{Month};

use crate::day::{RuleError, number_of};
use crate::days::Days;
use crate::period::Period;
use crate::row::Row;
use cron_moments::calendar::KnownMonth;
use cron_moments::civil::DAYS;
use jiff::civil::Date;

/// The greatest number of days, weeks or months of which a rule allows one.
pub const GREATEST_COUNT: u32 = 10_000;

/// The number of January 1970, where months are counted from January of the year 0.
const FIRST_MONTH: u32 = 23_640;

/// The number of the month after December 2100.
const MONTHS_END: u32 = 25_212;

/// One day, week or month in so many: the one that an anchor date lies in, and those that are a
/// whole number of steps after or before it. A week begins on Monday.
#[derive(Clone, Copy)]
pub struct Every {
    period: Period,
    count: u32,
    place: u32,
    ghost counts: { (1 ≤ count) × (count ≤ 10_000) },
}

// Days, weeks or months in a row, by their numbers: `first`, and those after it that come before
// `end`.
#[derive(Clone, Copy)]
struct Places {
    first: u32,
    end: u32,
    allowed: bool,
}

// The number of the month that a day lies in, counted from January of the year 0.
fn month_of(day: u32) -> u32
    requires { day < days_in_range }
    ensures value { result ≡ month_of day }
    ensures bound { (first_month ≤ result) × (result < months_end) }
{
    KnownMonth::january_1970().month_and_day(day).0
}

// The number of the day, week or month that a day lies in.
fn place_of(period: Period, day: u32) -> u32
    requires { day < days_in_range }
    ensures value { result ≡ place_of period day }
    ensures bound { result < 50_000 }
{
    match period {
        Period::Day => day,
        Period::Week => (day + 3) / 7,
        Period::Month => month_of(day),
    }
}

// The first day of the month `month`, or of the first month of the range if that comes later. The
// day after the range if the month comes after it.
fn month_start(month: u32) -> u32
    ensures start { IsStart Month month result }
    ensures bound { result ≤ days_in_range }
{
    if month <= FIRST_MONTH {
        return 0;
    }
    if month >= MONTHS_END {
        return DAYS;
    }
    KnownMonth::of_number(month).first_day()
}

// The first day of the range in the day, week or month `place` or after it. The day after the range
// if there is none.
fn start_of(period: Period, place: u32) -> u32
    requires { place < 100_000 }
    ensures start { IsStart period place result }
    ensures bound { result ≤ days_in_range }
{
    match period {
        Period::Day => place.min(DAYS),
        Period::Week => (7 * place).saturating_sub(3).min(DAYS),
        Period::Month => month_start(place),
    }
}

// The days, weeks or months around `place` that are treated alike, of which one in `count` is
// allowed, `anchor` among them.
fn places_around(place: u32, count: u32, anchor: u32) -> Places
    requires place { place < 50_000 }
    requires count { (1 ≤ count) × (count ≤ 10_000) }
    ensures around { (result.first ≤ place) × (place < result.end) }
    ensures bound { result.end < 100_000 }
    ensures alike { (x : ℕ) → result.first ≤ x → x < result.end
        → is_steps_apart count anchor x ≡ result.allowed }
{
    let past = (place + count - anchor % count) % count;
    if past == 0 {
        return Places {
            first: place,
            end: place + 1,
            allowed: true,
        };
    }
    Places {
        first: (place + 1).saturating_sub(past),
        end: place + count - past,
        allowed: false,
    }
}

impl Every {
    /// One `period` in `count`, the one that `anchor` lies in among them. `count` is from 1 to
    /// `GREATEST_COUNT`.
    pub fn of(period: Period, count: u32, anchor: Date) -> Result<Every, RuleError>
        ensures { MatchResult result
            (λ rule. (rule.period ≡ period) × (rule.count ≡ count)
            × (rule.place ≡ place_of period (nat_abs (epoch_day anchor))))
            (RefusesEvery count anchor) }
    {
        if count == 0 || count > GREATEST_COUNT {
            return Err(RuleError::NoCount(count));
        }
        let place = place_of(period, number_of(anchor)?);
        Ok(Every {
            period,
            count,
            place,
        })
    }
}

impl Days for Every {
    ghost use Rattle.cron_days.specs.Rules.{is_steps_apart, place_of};

    ghost allows = { λ rule n. is_steps_apart rule.count rule.place (place_of rule.period n) };

    fn row_of(&self, day: u32) -> Row {
        let places = places_around(place_of(self.period, day), self.count, self.place);
        Row {
            first: start_of(self.period, places.first),
            last: start_of(self.period, places.end) - 1,
            allowed: places.allowed,
        }
    }
}
