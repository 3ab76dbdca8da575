//! The calls by instants, which take no memory.

use anyhow::Error;
use cron::Schedule;
use cron_fires::{
    Dues, Fires, Union, fields_of, first_due_after, first_due_past, first_fire_after,
    first_fire_past, last_due_by, last_fire_by,
};
use jiff::Timestamp;
use jiff::tz::TimeZone;

/// Makes the calls by instants, and prints a line after each.
pub fn run(rt: &HostRuntime, schedule: &Schedule) -> Result<(), Error> {
    let zone = TimeZone::posix("CST6CDT,M3.2.0,M11.1.0")?;
    let start: Timestamp = "2022-11-06T05:30:00Z".parse()?;
    let end: Timestamp = "2022-11-06T07:00:00Z".parse()?;
    println!(rt; "set up")?;
    let last = last_fire_by(schedule, start, &zone);
    println!(rt; "last_fire_by: {}", last.is_some())?;
    let missed = Fires::between(schedule, start, end, &zone).take(9).count();
    println!(rt; "Fires::between: {missed}")?;
    let ahead = Fires::after(schedule, start, &zone).next();
    println!(rt; "Fires::after: {}", ahead.is_some())?;
    let Some(fire) = first_fire_after(schedule, start, &zone) else {
        return Ok(());
    };
    println!(rt; "first_fire_after: {fire}")?;
    let next = first_fire_past(schedule, &fire, &zone);
    println!(rt; "first_fire_past: {}", next.is_some())?;
    let next = Fires::past(schedule, &fire, &zone).next();
    println!(rt; "Fires::past: {}", next.is_some())?;
    Ok(())
}

/// Makes the calls by instants for several schedules as one and for due fires, and prints a line
/// after each.
pub fn run_unions(rt: &HostRuntime, schedule: &Schedule) -> Result<(), Error> {
    let zone = TimeZone::posix("CST6CDT,M3.2.0,M11.1.0")?;
    let start: Timestamp = "2022-11-06T05:30:00Z".parse()?;
    let end: Timestamp = "2022-11-06T07:00:00Z".parse()?;
    let hourly = Schedule::from_str(rt.alloc(), "0 15 * * * *")?;
    println!(rt; "set up")?;
    let two = [fields_of(schedule), fields_of(&hourly)];
    let both = Union { schedules: &two };
    let merged = Fires::between(&both, start, end, &zone).take(9).count();
    println!(rt; "Fires of a union: {merged}")?;
    let thirteen = [fields_of(schedule); 13];
    let many = Union {
        schedules: &thirteen,
    };
    let searched = Fires::between(&many, start, end, &zone).take(9).count();
    println!(rt; "Fires of many schedules: {searched}")?;
    let dues = Dues::between(schedule, start, end, &zone).take(9).count();
    println!(rt; "Dues::between: {dues}")?;
    let dues = Dues::between(&both, start, end, &zone).take(9).count();
    println!(rt; "Dues of a union: {dues}")?;
    let last = last_due_by(&both, start, &zone);
    println!(rt; "last_due_by: {}", last.is_some())?;
    let Some(due) = first_due_after(&both, start, &zone) else {
        return Ok(());
    };
    println!(rt; "first_due_after: {due}")?;
    let next = first_due_past(&both, &due, &zone);
    println!(rt; "first_due_past: {}", next.is_some())?;
    Ok(())
}
