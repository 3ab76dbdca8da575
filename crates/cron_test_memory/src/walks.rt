//! The calls of walks that take no memory.

use anyhow::Error;
use cron::{OwnedScheduleIterator, Schedule};
use jiff::Timestamp;
use jiff::tz::TimeZone;

/// Makes the calls of walks, and prints a line after each.
pub fn run(rt: &HostRuntime, schedule: &Schedule) -> Result<(), Error> {
    let zone = TimeZone::posix("CST6CDT,M3.2.0,M11.1.0")?;
    let start: Timestamp = "2022-11-06T05:30:00Z".parse()?;
    println!(rt; "set up")?;
    let mut walk = schedule.after(start, &zone);
    println!(rt; "after")?;
    for _ in 0..4 {
        let answer = walk.next().is_some();
        println!(rt; "next: {answer}")?;
    }
    let answer = walk.next_back().is_some();
    println!(rt; "next_back: {answer}")?;
    let mut reversed = schedule.upcoming(start, &zone).rev();
    println!(rt; "upcoming and rev")?;
    let answer = reversed.next();
    println!(rt; "next of a reversed walk: {}", answer.is_some())?;
    let Some(item) = answer else {
        return Ok(());
    };
    let resumed = schedule.resume(&item, &zone);
    println!(rt; "resume: {}", resumed.is_some())?;
    let other = Schedule::from_str(rt.alloc(), "@hourly")?;
    println!(rt; "set up")?;
    let answer = schedule.after_owned(start, zone)?.next();
    println!(rt; "after_owned: {}", answer.is_some())?;
    let answer = schedule.upcoming_owned(start, zone)?.next();
    println!(rt; "upcoming_owned: {}", answer.is_some())?;
    let answer = OwnedScheduleIterator::new(other, start, zone).next();
    println!(rt; "OwnedScheduleIterator::new: {}", answer.is_some())?;
    Ok(())
}
