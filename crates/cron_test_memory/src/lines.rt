//! The calls of a watched writer, which remembers whether it failed, and of a page, a listing of a
//! few items. They take no memory.

use anyhow::Error;
use cron::Schedule;
use cron_walk_listing::page::page;
use cron_writer::watched::{Watched, send};
use jiff::Timestamp;
use jiff::tz::TimeZone;
use std::io;

/// Makes the calls of a watched writer and of a page, with a line after each.
pub fn run(rt: &HostRuntime, schedule: &Schedule) -> Result<(), Error> {
    let zone = TimeZone::UTC;
    let start: Timestamp = "2024-01-01T00:00:00Z".parse()?;
    let Some(item) = schedule.after(start, &zone).next() else {
        return Ok(());
    };
    println!(rt; "set up")?;
    let mut out = Watched::new(io::writer(rt));
    send(&mut out, b"send\n");
    let _written = out.write(b"write\n");
    let _flushed = out.flush();
    println!(rt; "flush: {}", out.has_failed())?;
    if out.has_failed() {
        return Ok(());
    }
    let _listed = page(schedule, &item, &zone, 3, false, &mut out);
    println!(rt; "page")?;
    Ok(())
}
