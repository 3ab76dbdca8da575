//! The searches, and the calls of a moment, which take no memory.

use anyhow::Error;
use cron::Schedule;
use cron::schedule::Moment;
use jiff::civil::DateTime;
use jiff::tz::TimeZone;

/// Makes the searches and the calls of a moment, and prints a line after each.
pub fn run(rt: &HostRuntime, schedule: &Schedule) -> Result<(), Error> {
    let zone = TimeZone::posix("CST6CDT,M3.2.0,M11.1.0")?;
    let from: DateTime = "2022-11-06T00:00:00".parse()?;
    println!(rt; "set up")?;
    println!(rt; "includes: {}", schedule.includes(from))?;
    let ahead = schedule.first_at_or_after(from, &zone);
    println!(rt; "first_at_or_after: {}", ahead.days)?;
    let back = schedule.last_at_or_before(from, &zone);
    println!(rt; "last_at_or_before: {}", back.days)?;
    println!(rt; "survey: {}", schedule.survey(from, &zone, 10).days)?;
    println!(rt;
        "first_time: {}",
        schedule.first_time(2, 10, 0).time.is_some()
    )?;
    println!(rt;
        "last_time: {}",
        schedule.last_time(2, 10, 0).time.is_some()
    )?;
    let Some(item) = schedule
        .after("2022-11-06T06:00:00Z".parse()?, &zone)
        .next()
    else {
        return Ok(());
    };
    println!(rt; "set up")?;
    println!(rt; "datetime: {}", item.datetime().hour())?;
    println!(rt; "timestamp: {}", item.timestamp().as_second())?;
    println!(rt; "offset: {}", item.offset().seconds())?;
    let again = Moment::from_parts(item.datetime(), item.offset());
    println!(rt; "from_parts: {}", again == Some(item))?;
    println!(rt; "Display of a moment: {item}")?;
    Ok(())
}
