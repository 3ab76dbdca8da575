//! Entries in a list, with an ordered set of std beside it: a way to merge fires without an agenda.
//! The costs of an agenda are compared with its costs.

use anyhow::{Context, Result};
use cron::schedule::Moment;
use cron_fires::{first_fire_after, first_fire_past};
use cron_moments::moment::instant_of;
use cron_units::fields::ScheduleFields;
use jiff::Timestamp;
use jiff::tz::TimeZone;
use std::alloc::Global;
use std::collections::BTreeSet;

/// An entry with its next fire.
#[derive(Drop)]
struct SortedEntry {
    table: ScheduleFields,
    zone: usize,
    fire: Moment,
}

/// Entries, and the instants of their next fires, each with the place of its entry in the list.
#[derive(Drop)]
pub struct Sorted {
    entries: Vec<SortedEntry>,
    instants: BTreeSet<(i64, usize)>,
}

impl Sorted {
    /// Returns a list without entries.
    pub fn new(alloc: Global) -> Sorted {
        Sorted {
            entries: Vec::new(alloc),
            instants: BTreeSet::new(alloc),
        }
    }

    /// Adds an entry with the fires of `table` after `start` in zone number `zone`. It fails if
    /// there is no such zone or no fire.
    pub fn add(
        &mut self,
        table: ScheduleFields,
        start: Timestamp,
        zones: &[TimeZone<'_>],
        zone: usize,
    ) -> Result<()> {
        let lent = zones.get(zone).context("no zone")?;
        let fire = first_fire_after(&table, start, lent).context("no fire")?;
        self.instants
            .insert((instant_of(&fire), self.entries.len()))?;
        self.entries.push(SortedEntry { table, zone, fire })?;
        Ok(())
    }

    /// Removes the next fire and returns the place of its entry. It fails if no entry fires any
    /// more.
    pub fn next(&mut self, zones: &[TimeZone<'_>]) -> Result<usize> {
        let (_, place) = self.instants.pop_first().context("no entry is left")?;
        let entry = self.entries.get_mut(place).context("no entry")?;
        let zone = zones.get(entry.zone).context("no zone")?;
        let fire = first_fire_past(&entry.table, &entry.fire, zone);
        if let Some(fire) = fire {
            entry.fire = fire;
            self.instants.insert((instant_of(&fire), place))?;
        }
        Ok(place)
    }
}
