//! Schedules, with what robfig/cron 3.0.1 reads each as: `BAD`, `EVERY`, or `OK` with seven numbers in
//! hexadecimal digits. The numbers are the sets of its minutes, hours, days, months and days of the
//! week, where bit i is number i; and whether its third and its fifth field have a star. Behind
//! them are the first fires after the start of 2024-01-15 in UTC.

use anyhow::Result;
use cron_fires::{Union, first_fire_after};
use cron_kubernetes::{Expression, Schedules, read};
use cron_test_rows::Row;
use cron_units::fields::ScheduleFields;
use cron_units::time_unit::{TimeUnitField, Years, whole};
use jiff::Timestamp;
use jiff::tz::TimeZone;
use std::alloc::{AllocError, Global};

const START: &str = "2024-01-15T00:00:00Z";

const ALL_DAYS: u64 = 0xffff_fffe;

// The text of a row, where signs stand for line feeds, carriage returns and tabs.
fn text_of(alloc: Global, cell: &str) -> Result<String, AllocError> {
    let text = cell.replace(alloc, '␊', "\n")?;
    let text = text.as_str().replace(alloc, '␍', "\r")?;
    text.as_str().replace(alloc, '␉', "\t")
}

// The members of a set as bits, where bit i is number i.
fn bits_of<T: TimeUnitField>(set: &T) -> u64 {
    let mut bits = 0_u64;
    for number in 0..64_u32 {
        if set.contains(number) {
            bits |= 1_u64 << number;
        }
    }
    bits
}

// Returns true if a schedule has these minutes, hours and months, second 0 only, and all years.
fn has_times(fields: &ScheduleFields, [minutes, hours, months]: [u64; 3]) -> bool {
    let years: Years = whole();
    bits_of(&fields.seconds) == 1
        && bits_of(&fields.minutes) == minutes
        && bits_of(&fields.hours) == hours
        && bits_of(&fields.months) == months
        && fields.years == years
        && !fields.days_of_month.last_day()
}

// The days of the month, as bits, that match if they are on day `weekday` of the week, 0 for Sunday.
fn days_on(schedules: &[ScheduleFields], weekday: u32) -> u64 {
    let mut days = 0_u64;
    for fields in schedules {
        if fields.days_of_week.contains(weekday.saturating_add(1)) {
            days |= bits_of(&fields.days_of_month);
        }
    }
    days
}

// The days of the month, as bits, that match by a row's sets if they are on day `weekday` of the week.
// If one of the fields has a star, both sets must match, and otherwise at least one of them.
fn told_days_on(month: u64, week: u64, has_star: bool, weekday: u32) -> u64 {
    let is_in_week = weekday < 7 && week >> weekday & 1 == 1;
    match (has_star, is_in_week) {
        (true, true) | (false, false) => month,
        (true, false) => 0,
        (false, true) => ALL_DAYS,
    }
}

// Returns true if schedules mean what the numbers of a row describe.
fn are_told(schedules: &Schedules, numbers: &[u64]) -> bool {
    let [minutes, hours, month, months, week, month_star, week_star] = numbers else {
        return false;
    };
    for fields in schedules.as_slice() {
        if !has_times(fields, [*minutes, *hours, *months]) {
            return false;
        }
    }
    let has_star = *month_star == 1 || *week_star == 1;
    for weekday in 0..7_u32 {
        if days_on(schedules.as_slice(), weekday)
            != told_days_on(*month, *week, has_star, weekday)
        {
            return false;
        }
    }
    !schedules.as_slice().is_empty()
}

// The numbers behind `OK `, which are written in hexadecimal digits.
fn numbers_of(alloc: Global, sets: &str) -> Result<Vec<u64>> {
    let mut numbers = Vec::new(alloc);
    for word in sets.split(' ') {
        numbers.push(u64::from_str_radix(word, 16)?)?;
    }
    Ok(numbers)
}

// Compares as many fires as the row has, or that there is none.
fn ask_fires(row: &mut Row<'_>, schedules: &Schedules) -> Result<()> {
    let union = Union {
        schedules: schedules.as_slice(),
    };
    let mut last = START.parse::<Timestamp>()?;
    for _ in 0..row.wanted().split(' ').count() {
        let Some(fire) = first_fire_after(&union, last, &TimeZone::UTC) else {
            break;
        };
        last = fire.timestamp();
        row.add(" ", &last)?;
    }
    row.check("its fires")
}

/// Compares how a schedule is read with what robfig/cron reads it as, and its fires.
pub(crate) fn ask(row: &mut Row<'_>) -> Result<()> {
    let text = text_of(row.alloc(), row.cell())?;
    let wanted = row.cell();
    match read(text.as_str()) {
        Err(_) => row.compare("robfig/cron", wanted, "BAD"),
        Ok(Expression::Every(_)) => row.compare("robfig/cron", wanted, "EVERY"),
        Ok(Expression::Fires(schedules)) => {
            let Some(sets) = wanted.strip_prefix("OK ") else {
                return row.compare("robfig/cron", wanted, "OK");
            };
            let numbers = numbers_of(row.alloc(), sets)?;
            let told = if are_told(&schedules, numbers.as_slice()) {
                wanted
            } else {
                "other sets"
            };
            row.compare("robfig/cron", wanted, told)?;
            ask_fires(row, &schedules)
        }
    }
}
