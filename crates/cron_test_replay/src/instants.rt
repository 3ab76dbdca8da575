//! Searches by instants for the fires of a schedule in a zone, or of several schedules as one. A
//! zone `file NAME` is read from the zone file in `zones.txt`.

use crate::lists::{ask_after, ask_between, ask_by};
use crate::{dues, fires};
use anyhow::{Result, bail, ensure};
use cron::Schedule;
use cron_agenda::{AddError, Agenda, AgendaFire, EntryFire, ZoneMissing};
use cron_fires::{AnyOf, AsShown, CivilSeconds, ClockChanges, Once, Union, fields_of};
use cron_test_rows::{Row, sets_of, zone_file, zone_named};
use cron_units::fields::ScheduleFields;
use jiff::Timestamp;
use jiff::civil::DateTime;
use jiff::tz::TimeZone;

/// How many times each schedule is in the long list. So the list has more schedules than the twelve
/// that a run merges by keeping the nearest match of each.
const TIMES: usize = 13;

/// Reads `the least instant`, `the greatest instant`, or an instant that ends with `Z`. Any other
/// text is a civil datetime, which gives the instant when the zone's clock shows it.
pub(crate) fn start_at(text: &str, zone: &TimeZone<'_>) -> Result<Timestamp> {
    match text {
        "the least instant" => Ok(Timestamp::MIN),
        "the greatest instant" => Ok(Timestamp::MAX),
        instant if instant.ends_with('Z') => Ok(instant.parse::<Timestamp>()?),
        shown => Ok(zone.to_timestamp(shown.parse::<DateTime>()?)?),
    }
}

/// Compares the answers of `table` to each call that belongs to the question `asked`.
fn ask_table<T: CivilSeconds>(
    row: &mut Row<'_>,
    asked: &str,
    table: &T,
    zone: &TimeZone<'_>,
    start: Timestamp,
    end: Timestamp,
) -> Result<()> {
    match asked {
        "fires after" => ask_after::<T, AsShown<_>>(row, table, zone, start),
        "fires by" => ask_by::<T, AsShown<_>>(row, table, zone, start),
        "fires between" => ask_between::<T, AsShown<_>>(row, table, zone, start, end),
        "dues after" => ask_after::<T, Once<_>>(row, table, zone, start),
        "dues by" => ask_by::<T, Once<_>>(row, table, zone, start),
        "dues between" => ask_between::<T, Once<_>>(row, table, zone, start, end),
        _ => bail!("{asked:?} is no question"),
    }
}

/// Removes the agenda's next fire and returns it. With a `now`, it must be due by then.
fn take(
    agenda: &mut Agenda<ScheduleFields>,
    zones: &[TimeZone<'_>],
    now: Option<Timestamp>,
) -> Result<Option<AgendaFire>, ZoneMissing> {
    match now {
        Some(now) => agenda.next_due(now, zones),
        None => agenda.next(zones),
    }
}

/// Adds a fire of an entry with the rule `changes` to the row's answer. It is an error if the fire
/// is of the other rule.
fn add_fire(row: &mut Row<'_>, changes: ClockChanges, fire: &EntryFire) -> Result<()> {
    let is_once = matches!(changes, ClockChanges::Once);
    match fire {
        EntryFire::AsShown(fire) => {
            ensure!(!is_once, "a fire as the clock shows it");
            fires::add(row, &Some(*fire))?;
        }
        EntryFire::Once(fire) => {
            ensure!(is_once, "a fire of a match");
            dues::add(row, &Some(*fire))?;
        }
    }
    Ok(())
}

/// Compares the fires of an agenda whose only entry is `fields`: those that are due by `now`, or as
/// many as the row has if `now` is `None`.
fn ask_agenda(
    row: &mut Row<'_>,
    fields: ScheduleFields,
    changes: ClockChanges,
    zone: &TimeZone<'_>,
    start: Timestamp,
    now: Option<Timestamp>,
) -> Result<()> {
    let mut agenda = Agenda::new(row.alloc());
    let zones = [*zone];
    if let Err(why) = agenda.add(fields, changes, start, &zones, 0) {
        ensure!(why == AddError::NoFires, "the entry is refused: {why}");
    }
    let most = match now {
        Some(_) => usize::MAX,
        None => row.wanted().split(", ").count(),
    };
    for _ in 0..most {
        let Some(due) = take(&mut agenda, &zones, now)? else {
            if now.is_some() {
                break;
            }
            row.add(", ", &"None")?;
            continue;
        };
        add_fire(row, changes, &due.fire)?;
    }
    row.check("an agenda")
}

/// Replays a row on its schedule, on a union of this one schedule, and on an agenda with it.
pub(crate) fn ask(row: &mut Row<'_>, asked: &str) -> Result<()> {
    let (text, name) = (row.cell(), row.cell());
    let file = zone_file(row, name)?;
    let zone = zone_named(name, &file)?;
    let start = start_at(row.cell(), &zone)?;
    let end = match asked {
        "fires between" | "dues between" => start_at(row.cell(), &zone)?,
        _ => start,
    };
    let schedule = Schedule::from_str(row.alloc(), text)?;
    let fields = fields_of(&schedule);
    ask_table(row, asked, &schedule, &zone, start, end)?;
    let union = Union {
        schedules: &[fields],
    };
    ask_table(row, asked, &union, &zone, start, end)?;
    match asked {
        "fires between" => {
            fires::ask_otherwise(row, &schedule, &zone, start, end)?;
            ask_agenda(row, fields, ClockChanges::AsShown, &zone, start, Some(end))
        }
        "dues after" => ask_agenda(row, fields, ClockChanges::Once, &zone, start, None),
        "dues between" => {
            ask_after::<Schedule, Once<_>>(row, &schedule, &zone, start)?;
            ask_agenda(row, fields, ClockChanges::Once, &zone, start, None)
        }
        _ => Ok(()),
    }
}

/// Replays a row on several schedules as one: on their `Union`, on their `AnyOf`, and on a `Union`
/// with each of them many times. A row has the question, the expressions, a zone, one or two
/// instants, and the answers. These were counted apart, second by second, like those of due fires.
pub(crate) fn ask_union(row: &mut Row<'_>) -> Result<()> {
    let (asked, expressions, name) = (row.cell(), row.cell(), row.cell());
    let file = zone_file(row, name)?;
    let zone = zone_named(name, &file)?;
    let instants = row.cell();
    let (start, end) = instants.split_once(" to ").unwrap_or((instants, instants));
    let (start, end) = (start.parse::<Timestamp>()?, end.parse::<Timestamp>()?);
    let few = sets_of(row.alloc(), expressions, " ; ")?;
    let mut many = Vec::new(row.alloc());
    for fields in &few {
        // all copies of the first come first: a run that takes only twelve of the list takes only
        // these
        for _ in 0..TIMES {
            many.push(*fields)?;
        }
    }
    let any = AnyOf {
        sets: few.as_slice(),
    };
    let few = Union {
        schedules: few.as_slice(),
    };
    let many = Union {
        schedules: many.as_slice(),
    };
    ask_table(row, asked, &few, &zone, start, end)?;
    ask_table(row, asked, &any, &zone, start, end)?;
    ask_table(row, asked, &many, &zone, start, end)
}
