//! Schedules limited to months of one length.

ghost use Rattle.std.specs.Prelude.{◌≡◌, ◌≤◌, ◌&&◌, filter, pos};
ghost use Rattle.jiff_core.specs.Calendar.{is_leap_year};
ghost use Rattle.cron_units.specs.Units.{contains};
ghost use Rattle.cron_quartz.specs.Days.{has_length, in_length, year_fits};

use cron_units::fields::ScheduleFields;
use cron_units::time_unit::{Months, TimeUnitField, Years, empty};

// Returns true if `year` has a 29th of February.
fn is_leap_year(year: u32) -> bool
    ensures { result ≡ is_leap_year (pos year) }
{
    year % 4 == 0 && (year % 100 != 0 || year % 400 == 0)
}

// Returns true if `month` has `length` days. The year is a leap year if `length` is 29, else a
// common year.
fn has_length(length: u32, month: u32) -> bool
    requires low { 1 ≤ month }
    requires high { month ≤ 12 }
    ensures { result ≡ has_length length month }
{
    let days = match month {
        2 if length == 29 => 29,
        2 => 28,
        4 | 6 | 9 | 11 => 30,
        _ => 31,
    };
    days == length
}

// Returns false if `length` is 28 or 29 and February of `year` has another length, else true.
fn year_fits(length: u32, year: u32) -> bool
    ensures { result ≡ year_fits length year }
{
    match length {
        28 => !is_leap_year(year),
        29 => is_leap_year(year),
        _ => true,
    }
}

fn keeps_month(length: u32, months: &Months, month: u32) -> bool
    requires low { 1 ≤ month }
    requires high { month ≤ 12 }
    ensures { result ≡ (contains months.now month && has_length length month) }
{
    months.contains(month) && has_length(length, month)
}

fn months_of(length: u32, months: &Months) -> Months
    ensures { result ≡ filter (has_length length) months.now }
{
    months.state_facts();
    let mut kept: Months = empty();
    for month in 1..13 {
        if keeps_month(length, months, month) {
            kept.insert(month);
        }
    }
    kept
}

fn keeps_year(length: u32, years: &Years, year: u32) -> bool
    ensures { result ≡ (contains years.now year && year_fits length year) }
{
    years.contains(year) && year_fits(length, year)
}

fn years_of(length: u32, years: &Years) -> Years
    ensures { result ≡ filter (year_fits length) years.now }
{
    years.state_facts();
    let mut kept: Years = empty();
    for year in 1970..2101 {
        if keeps_year(length, years, year) {
            kept.insert(year);
        }
    }
    kept
}

/// The schedule `fields` limited to months of `length` days.
pub(crate) fn in_length(length: u32, fields: &ScheduleFields) -> ScheduleFields
    ensures { result ≡ in_length length fields.now }
{
    ScheduleFields {
        months: months_of(length, &fields.months),
        years: years_of(length, &fields.years),
        ..*fields
    }
}
