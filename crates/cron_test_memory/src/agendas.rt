//! The calls of an agenda that take no memory.

use anyhow::Error;
use cron::Schedule;
use cron_agenda::{Agenda, Entry};
use cron_fires::{ClockChanges, fields_of};
use cron_units::fields::ScheduleFields;
use jiff::Timestamp;
use jiff::tz::TimeZone;

/// The number of entries that are added.
const ENTRIES: usize = 8;

// Takes five times `ENTRIES` fires. Returns the sum of their entries' ids, or `None` if a fire is
// missing.
fn take(agenda: &mut Agenda<ScheduleFields>, zones: &[TimeZone<'_>]) -> Option<u64> {
    let mut sum: u64 = 0;
    for _ in 0..5 * ENTRIES {
        let Ok(Some(fire)) = agenda.next(zones) else {
            return None;
        };
        sum = sum.wrapping_add(fire.id);
    }
    Some(sum)
}

// Removes the next fire if it is due by `now`. Returns true if there was one.
fn take_due(agenda: &mut Agenda<ScheduleFields>, zones: &[TimeZone<'_>], now: Timestamp) -> bool {
    let Ok(Some(_due)) = agenda.next_due(now, zones) else {
        return false;
    };
    true
}

// The id of an entry, or `ENTRIES` if there is none.
fn id_of(entry: Option<Entry<ScheduleFields>>) -> u64 {
    match entry {
        Some(found) => found.id,
        None => ENTRIES as u64,
    }
}

// Removes the entries with ids 0 to 5, which makes the agenda drop the places of removed entries.
// Returns how many there were.
fn remove(agenda: &mut Agenda<ScheduleFields>) -> usize {
    let mut removed: usize = 0;
    for id in 0..6 {
        if agenda.remove(id) {
            removed = removed.saturating_add(1);
        }
    }
    removed
}

/// Makes the calls of an agenda whose memory was reserved before, and prints a line after each.
pub fn run(rt: &HostRuntime, schedule: &Schedule) -> Result<(), Error> {
    let zones = [TimeZone::posix("CST6CDT,M3.2.0,M11.1.0")?];
    let start: Timestamp = "2022-11-06T05:30:00Z".parse()?;
    let mut agenda = Agenda::new(rt.alloc());
    agenda.reserve(ENTRIES)?;
    println!(rt; "set up")?;
    for _ in 0..ENTRIES {
        let table = fields_of(schedule);
        agenda.add(table, ClockChanges::AsShown, start, &zones, 0)?;
    }
    println!(rt; "add behind reserve: {}", agenda.len())?;
    println!(rt; "first: {}", id_of(agenda.first()))?;
    println!(rt; "get: {}", id_of(agenda.get(7)))?;
    let is_due = take_due(&mut agenda, &zones, start);
    println!(rt; "next_due: {is_due}")?;
    let sum = take(&mut agenda, &zones);
    println!(rt; "next: {}", sum == Some(140))?;
    let removed = remove(&mut agenda);
    println!(rt; "remove: {removed}")?;
    println!(rt; "len: {}", agenda.len())?;
    Ok(())
}
