//! The number of fires on each of some civil days, and in each civil hour.
ghost use Rattle.std.specs.Prelude.{◌≡◌, ◌+◌, ◌*◌, ◌<◌, ◌≤◌, ◌++◌, IfOk, OnOk, map};
ghost use Rattle.std.specs.List.{range_with_len};
ghost use Rattle.jiff.specs.Words.{plain_zone};
ghost use Rattle.cron_bits.specs.Words.{has_bit};
ghost use Rattle.cron_clocks.specs.Steady.{IsKnown};
ghost use Rattle.cron_moments.specs.Civil.{days_in_range};
ghost use Rattle.cron_unions.specs.Unions.{any_of};
ghost use Rattle.cron_counting.specs.Counts.{counts_by_day, counts_by_hour};
ghost use Rattle.cron_counting.specs.Inner.Times.{hour_span, readings_in, IsGathered};
ghost use Rattle.cron_counting.specs.Inner.Totals.{only_if, total};

use crate::day::{count_readings, covers_day, hourly_readings};
use crate::span::{HOUR, Span};
use crate::times::{Times, gather};
use cron_bits::words::Words;
use cron_clocks::stretch::Stretch;
use cron_moments::civil::{SECONDS_PER_DAY, civil_of};
use cron_units::fields::ScheduleFields;
use jiff::tz::TimeZone;
use std::alloc::{AllocError, Global};

/// All times of a day.
const DAY: Span = Span {
    first: 0,
    end: SECONDS_PER_DAY,
};

// Replaces `times` by the times of day of each schedule that matches `day`.
fn gather_day(
    schedules: &[ScheduleFields],
    day: u32,
    times: &mut Vec<Times>,
) -> Result<(), AllocError>
    requires { day < days_in_range }
    ensures { OnOk result (IsGathered schedules.now day times.new.items) }
{
    gather(schedules, civil_of(day * SECONDS_PER_DAY).date(), times)
}

/// The number of fires of the union of `schedules` on each of `days` civil days in `zone`. Day
/// `first` is the first, counted from 1970-01-01. Each instant when the clock shows a matching
/// civil second is a fire. It counts for the day that the clock shows.
pub fn fires_by_day(
    alloc: Global,
    schedules: &[ScheduleFields],
    first: u32,
    days: u32,
    zone: &TimeZone<'_>,
) -> Result<Vec<u32>, AllocError>
    requires { first + days ≤ days_in_range }
    ensures { IfOk result (λ counts. counts.items
        ≡ counts_by_day (any_of schedules.now) (plain_zone zone.now) first days) }
{
    let mut counts = Vec::new(alloc);
    let mut times = Vec::new(alloc);
    let mut stretch = Stretch::empty();
    for day in first..first + days {
        gather_day(schedules, day, &mut times)?;
        counts.push(count_readings(times.as_slice(), day, DAY, zone, &mut stretch))?;
    }
    Ok(counts)
}

// `count` if `hour` is among `hours`, else 0.
fn count_at(hours: u64, hour: u32, count: u32) -> u32
    ensures { result ≡ only_if (has_bit hours hour) count }
{
    if hours.contains(hour) { count } else { 0 }
}

// Appends one number for each hour of a day: `count` if the hour is among `hours`, else 0.
fn push_alike(hours: u64, count: u32, counts: &mut Vec<u32>) -> Result<(), AllocError>
    ensures { OnOk result (counts.new.items ≡ counts.old.items
        ++ map (λ hour. only_if (has_bit hours hour) count) (range_with_len 0 24)) }
{
    for hour in 0..24 {
        counts.push(count_at(hours, hour, count))?;
    }
    Ok(())
}

// Appends the number of fires that `times` have in each hour of `day`, counting each hour apart.
fn push_each(
    times: &[Times],
    day: u32,
    zone: &TimeZone<'_>,
    stretch: &mut Stretch,
    counts: &mut Vec<u32>,
) -> Result<(), AllocError>
    requires day { day < days_in_range }
    requires known { IsKnown (plain_zone zone.now) stretch.old }
    ensures known { IsKnown (plain_zone zone.now) stretch.new }
    ensures counts { OnOk result (counts.new.items ≡ counts.old.items
        ++ map
        (λ hour. total (readings_in times.now (plain_zone zone.now) day (hour_span hour)) 86_400)
        (range_with_len 0 24)) }
{
    for hour in 0..24 {
        let span = Span {
            first: hour * HOUR,
            end: hour * HOUR + HOUR,
        };
        counts.push(count_readings(times, day, span, zone, stretch))?;
    }
    Ok(())
}

// Appends the number of fires that `times` have in each hour of `day`. On a day without a
// transition, each hour of a single schedule has the same number.
fn push_hours(
    times: &[Times],
    day: u32,
    zone: &TimeZone<'_>,
    stretch: &mut Stretch,
    counts: &mut Vec<u32>,
) -> Result<(), AllocError>
    requires day { day < days_in_range }
    requires known { IsKnown (plain_zone zone.now) stretch.old }
    ensures known { IsKnown (plain_zone zone.now) stretch.new }
    ensures counts { OnOk result (counts.new.items ≡ counts.old.items
        ++ map
        (λ hour. total (readings_in times.now (plain_zone zone.now) day (hour_span hour)) 86_400)
        (range_with_len 0 24)) }
{
    let whole = covers_day(stretch, day, zone);
    match times {
        [] => push_alike(0, 0, counts),
        [only] if whole => push_alike(only.hours, hourly_readings(only, stretch), counts),
        _ => push_each(times, day, zone, stretch, counts),
    }
}

/// The number of fires in each civil hour of `days` days from day `first` on, counted as in
/// `fires_by_day`. Each day has 24 hours, even if its clock skips or repeats some.
pub fn fires_by_hour(
    alloc: Global,
    schedules: &[ScheduleFields],
    first: u32,
    days: u32,
    zone: &TimeZone<'_>,
) -> Result<Vec<u32>, AllocError>
    requires { first + days ≤ days_in_range }
    ensures { IfOk result (λ counts. counts.items
        ≡ counts_by_hour (any_of schedules.now) (plain_zone zone.now) (first * 24) (days * 24)) }
{
    let mut counts = Vec::new(alloc);
    let mut times = Vec::new(alloc);
    let mut stretch = Stretch::empty();
    for day in first..first + days {
        gather_day(schedules, day, &mut times)?;
        push_hours(times.as_slice(), day, zone, &mut stretch, &mut counts)?;
    }
    Ok(counts)
}
