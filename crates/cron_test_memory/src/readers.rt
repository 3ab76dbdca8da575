//! The readers that take an owned text, and the views of what they read. They take no memory.

use anyhow::Error;
use cron::{Schedule, TimeUnitSpec};
use std::borrow::CowStr;
use std::ops::Bound;

const TEXT: &str = "0 0,30 1-3 6,L * ?";

/// Makes the calls of readers and views, and prints a line after each. Returns the schedule for the
/// other calls.
pub fn run(rt: &HostRuntime) -> Result<Schedule, Error> {
    let text = String::from_str(rt.alloc(), TEXT)?;
    let other = String::from_str(rt.alloc(), TEXT)?;
    println!(rt; "set up")?;
    let schedule = Schedule::try_from_string(rt.alloc(), text)?;
    println!(rt; "try_from_string: {schedule}")?;
    let same = Schedule::try_from_cow(rt.alloc(), CowStr::Owned(other))?;
    println!(rt; "try_from_cow: {same}")?;
    println!(rt; "source: {}", schedule.source())?;
    println!(rt; "eq: {}", schedule == same)?;
    println!(rt; "timeunitspec_eq: {}", schedule.timeunitspec_eq(&same))?;
    let text = String::from(same);
    println!(rt; "String::from: {text}")?;
    views(rt, &schedule)?;
    let Err(error) = Schedule::from_str(rt.alloc(), "* * *") else {
        return Ok(schedule);
    };
    println!(rt; "set up")?;
    println!(rt; "kind: {:?}", error.kind())?;
    Ok(schedule)
}

fn views(rt: &HostRuntime, schedule: &Schedule) -> Result<(), Error> {
    println!(rt; "seconds: {}", schedule.seconds().count())?;
    println!(rt; "minutes: {}", schedule.minutes().includes(30))?;
    println!(rt; "hours: {}", schedule.hours().iter().count())?;
    let days = schedule.days_of_month();
    let last_days = days.range((Bound::Included(2), Bound::Unbounded)).count();
    println!(rt; "days_of_month: {last_days}")?;
    println!(rt; "last_day: {}", days.last_day())?;
    println!(rt; "months: {}", schedule.months().is_all())?;
    println!(rt;
        "days_of_week: {}",
        schedule.days_of_week().iter().rev().count()
    )?;
    println!(rt; "years: {}", schedule.years().count())?;
    Ok(())
}
