//! Expressions, with what Debian's cron 3.0pl1-162 and cronie 1.7.2 read each as: `OK` and eight
//! numbers, or `BAD`. The numbers are the sets of its minutes, hours, days, months and weekdays,
//! where bit i is number i and Sunday is 0 and 7; whether its third and its fifth field begin with
//! a star; and whether it is `@reboot`.
//!
//! An expression that both read alike means what they read. Every other one must be refused.

use anyhow::Result;
use cron_crontab::{Expression, read};
use cron_test_rows::{Row, sets_of};
use cron_units::fields::ScheduleFields;
use cron_units::time_unit::{TimeUnitField, Years, whole};
use std::alloc::Global;

// The members of a set as bits, where bit i is number i.
fn bits_of<T: TimeUnitField>(set: &T) -> u64 {
    let mut bits = 0_u64;
    for number in 0..64_u32 {
        if set.contains(number) {
            bits |= 1_u64 << number;
        }
    }
    bits
}

// Returns true if a schedule has these minutes, hours and months, second 0 only, all years, and no
// `L` for the last day of the month.
fn has_times(fields: &ScheduleFields, [minutes, hours, months]: [u64; 3]) -> bool {
    let years: Years = whole();
    bits_of(&fields.seconds) == 1
        && bits_of(&fields.minutes) == minutes
        && bits_of(&fields.hours) == hours
        && bits_of(&fields.months) == months
        && fields.years == years
        && !fields.days_of_month.last_day()
}

// The days of the month, as bits, that match if they are on day `weekday` of the week. 0 and 7 are
// Sunday.
fn days_on(schedules: &[ScheduleFields], weekday: u32) -> u64 {
    let mut days = 0_u64;
    for fields in schedules {
        if fields.days_of_week.contains(weekday % 7 + 1) {
            days |= bits_of(&fields.days_of_month);
        }
    }
    days
}

// The days of the month, as bits, that match by a row's sets `month` and `week`, if they are on day
// `weekday` of the week. If one of the fields begins with a star, both sets must match, and
// otherwise at least one of them.
fn told_days_on(month: u64, week: u64, has_star: bool, weekday: u32) -> u64 {
    let is_in_week = weekday < 8 && week >> weekday & 1 == 1;
    match (has_star, is_in_week) {
        (true, true) | (false, false) => month,
        (true, false) => 0,
        (false, true) => 0xffff_fffe,
    }
}

// Returns true if an expression means what the numbers of a row describe.
fn is_told(expression: &Expression, numbers: &[u64]) -> bool {
    let [
        minutes,
        hours,
        month,
        months,
        week,
        month_star,
        week_star,
        reboot,
    ] = numbers
    else {
        return false;
    };
    let Expression::Fires(schedules) = expression else {
        return *reboot == 1;
    };
    for fields in schedules.as_slice() {
        if !has_times(fields, [*minutes, *hours, *months]) {
            return false;
        }
    }
    let has_star = *month_star == 1 || *week_star == 1;
    for weekday in 0..8_u32 {
        let told = told_days_on(*month, *week, has_star, weekday);
        if days_on(schedules.as_slice(), weekday) != told {
            return false;
        }
    }
    *reboot == 0 && !schedules.as_slice().is_empty()
}

// The numbers of an answer, which are written in hexadecimal digits.
fn numbers_of(alloc: Global, sets: &str) -> Result<Vec<u64>> {
    let mut numbers = Vec::new(alloc);
    for word in sets.split(' ') {
        numbers.push(u64::from_str_radix(word, 16)?)?;
    }
    Ok(numbers)
}

/// Compares how an expression is read with what both crons read it as.
pub(crate) fn ask(row: &mut Row<'_>) -> Result<()> {
    let (text, debian) = (row.cell(), row.cell());
    let read = read(text);
    let sets = debian.strip_prefix("OK ");
    let wanted = if debian == row.wanted() && sets.is_some() {
        "read alike"
    } else {
        "refused"
    };
    let got = match &read {
        Err(_) => "refused",
        Ok(expression) => {
            let numbers = numbers_of(row.alloc(), sets.unwrap_or("0"))?;
            if is_told(expression, numbers.as_slice()) {
                "read alike"
            } else {
                "read otherwise"
            }
        }
    };
    row.compare("both crons", wanted, got)
}

/// Compares the schedules of an expression with the row's, which are one or two cron expressions of
/// six fields, or `reboot`.
pub(crate) fn ask_schedules(row: &mut Row<'_>) -> Result<()> {
    let read = read(row.cell());
    let wanted = row.wanted();
    let is_told = match &read {
        Err(_) => false,
        Ok(Expression::Reboot) => wanted == "reboot",
        Ok(Expression::Fires(schedules)) => {
            sets_of(row.alloc(), wanted, "+")?.as_slice() == schedules.as_slice()
        }
    };
    let got = if is_told { wanted } else { "others" };
    row.compare("schedules", wanted, got)
}
