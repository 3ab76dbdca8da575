//! Rows of agendas: zones, steps, and the answer of each step. The answers were counted apart: a
//! scan of seconds gave the fires of each entry, and a scan of all entries gave the next fire.

use crate::entries::{files_of, tables_of, zones_of};
use anyhow::{Context, Result, bail};
use cron_agenda::{Agenda, AgendaFire, EntryFire, ZoneMissing};
use cron_fires::{ClockChanges, Union};
use cron_test_rows::Row;
use cron_units::fields::ScheduleFields;
use jiff::Timestamp;
use jiff::tz::TimeZone;
use std::alloc::AllocError;

/// Adds a fire to the row's answer: the entry's id, its rule, the civil second that matches, and
/// the instant.
fn add_fire(row: &mut Row<'_>, id: u64, fire: &EntryFire) -> Result<(), AllocError> {
    row.add(", ", &id)?;
    match fire {
        EntryFire::AsShown(moment) => row.add(" shown ", &moment.datetime())?,
        EntryFire::Once(due) => row.add(" once ", &due.nominal())?,
    }
    row.add(" at ", &fire.timestamp())
}

/// Adds the outcome `taken` of a step to the answer. Returns its fire, or `None` if there is none.
fn add_taken(
    row: &mut Row<'_>,
    taken: Result<Option<AgendaFire>, ZoneMissing>,
) -> Result<Option<EntryFire>, AllocError> {
    match taken {
        Ok(Some(due)) => {
            add_fire(row, due.id, &due.fire)?;
            if due.is_last {
                row.add(" ", &"last")?;
            }
            return Ok(Some(due.fire));
        }
        Ok(None) => row.add(", ", &"None")?,
        Err(missing) => {
            let id = missing.id;
            row.add(", ", &"the zone of entry")?;
            row.add(" ", &id)?;
            row.add(" ", &"is not lent")?;
        }
    }
    Ok(None)
}

/// Adds an entry to the agenda. `words` are a rule, a zone's index and an instant, as in
/// `shown 0 2024-03-10T05:00:00Z`; the entry then has the fires after this instant. Or `words` are
/// a zone's index only; the entry then has the fires past `last`.
fn add_entry<'x>(
    row: &mut Row<'_>,
    agenda: &mut Agenda<Union<'x>>,
    schedules: &'x [ScheduleFields],
    zones: &[TimeZone<'_>],
    words: &str,
    last: Option<EntryFire>,
) -> Result<()> {
    let table = Union { schedules };
    let added = match words.split_once(' ') {
        Some((rule, words)) => {
            let (zone, start) = words.split_once(' ').context("a zone is wanted")?;
            let start = start.parse::<Timestamp>()?;
            let changes = match rule {
                "shown" => ClockChanges::AsShown,
                "once" => ClockChanges::Once,
                _ => bail!("{rule:?} is no rule"),
            };
            agenda.add(table, changes, start, zones, zone.parse::<usize>()?)
        }
        None => {
            let last = last.context("nothing was taken")?;
            agenda.add_past(table, last, zones, words.parse::<usize>()?)
        }
    };
    match added {
        Ok(id) => {
            row.add(", ", &'#')?;
            row.add("", &id)?;
        }
        Err(error) => row.add(", ", &error)?,
    }
    Ok(())
}

/// Replays a row, which has zones and steps. After a step `lend 1` the agenda is given only the
/// first zone.
pub(crate) fn ask(row: &mut Row<'_>) -> Result<()> {
    let (names, steps) = (row.cell(), row.cell());
    let files = files_of(row, names)?;
    let zones = zones_of(row.alloc(), names, files.as_slice())?;
    let tables = tables_of(row.alloc(), steps)?;
    let mut agenda = Agenda::new(row.alloc());
    let mut lent = zones.len();
    let mut last = None;
    for (step, table) in steps.split(" ; ").zip(tables.as_slice()) {
        let (words, _) = step.split_once(": ").unwrap_or((step, ""));
        let (name, rest) = words.split_once(' ').unwrap_or((words, ""));
        let zones = zones.get(..lent).context("too many zones")?;
        match name {
            "add" | "past" => add_entry(row, &mut agenda, table, zones, rest, last)?,
            "next" => last = add_taken(row, agenda.next(zones))?.or(last),
            "due" => {
                let now = rest.parse::<Timestamp>()?;
                last = add_taken(row, agenda.next_due(now, zones))?.or(last);
            }
            "first" | "get" => {
                let found = match name {
                    "get" => agenda.get(rest.parse::<u64>()?),
                    _ => agenda.first(),
                };
                match &found {
                    Some(entry) => add_fire(row, entry.id, &entry.fire)?,
                    None => row.add(", ", &"None")?,
                }
            }
            "remove" => row.add(", ", &agenda.remove(rest.parse::<u64>()?))?,
            "count" => row.add(", ", &agenda.len())?,
            "lend" => {
                lent = rest.parse::<usize>()?;
                row.add(", ", &rest)?;
            }
            _ => bail!("{name:?} is no step"),
        }
    }
    row.check("the steps")
}
