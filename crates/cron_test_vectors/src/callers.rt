//! Rows of the functions of `cron_callers`. A row has the function and its arguments.

use crate::answers::add_all;
use crate::words::{first_word, reading_of};
use crate::zoned::Case;
use anyhow::{Context, Result, bail, ensure};
use cron::Schedule;
use cron::schedule::Moment;
use cron::time_unit::Ordinal;
use cron_callers::{
    Alarms, Noted, count_hours, count_items, descending_hours, fault_of, fire_after, first_alarms,
    first_items, greatest_month, has_thirteenth_month, item_after, items_of_day, last_items,
    minutes_between, missed_runs, next_fire, some_warm_month, summer_months, work_days, year_count,
};
use cron_test_rows::Row;
use jiff::Timestamp;
use std::alloc::Global;

/// The items that the function `caller` returns.
fn items_of(
    alloc: Global,
    case: Case<'_>,
    caller: &str,
    start: Timestamp,
    other: &str,
) -> Result<Vec<Moment>> {
    let Case { schedule, zone } = case;
    Ok(match caller {
        "first_items" => first_items(alloc, schedule, start, zone, other.parse()?)?,
        "work_days" => first_items(alloc, &work_days(alloc)?, start, zone, other.parse()?)?,
        "last_items" => last_items(alloc, schedule, start, zone, other.parse()?)?,
        "items_of_day" => items_of_day(alloc, schedule, start, other.parse()?, zone)?,
        "missed_runs" => missed_runs(alloc, schedule, start, other.parse()?, zone)?,
        _ => bail!("{caller:?} answers no items"),
    })
}

fn ask_items(row: &mut Row<'_>, case: Case<'_>, caller: &str, start: Timestamp) -> Result<()> {
    let other = row.cell();
    for item in items_of(row.alloc(), case, caller, start, other)? {
        row.add(", ", &item)?;
    }
    Ok(())
}

/// Adds the fire after the noted fire, or the item after the noted item.
fn ask_noted(row: &mut Row<'_>, case: Case<'_>, caller: &str, noted: &str) -> Result<()> {
    let (shown, offset) = reading_of(noted)?;
    let noted = Noted { shown, offset };
    let answer = if caller == "fire_after" {
        fire_after(case.schedule, noted, case.zone)
    } else {
        item_after(case.schedule, noted, case.zone)
    };
    Ok(add_all(row, "", &[answer])?)
}

/// Adds the first two alarms after `now`. It is an error if the zone has more than one offset.
fn ask_alarms(row: &mut Row<'_>, case: Case<'_>, now: Timestamp) -> Result<()> {
    let offset = case.zone.to_fixed_offset().context("not one offset")?;
    let Alarms { first, second } = first_alarms(case.schedule, now, offset);
    for alarm in [first, second] {
        row.add(" ", &alarm.context("no alarm")?)?;
    }
    Ok(())
}

pub(crate) fn ask(row: &mut Row<'_>, case: Case<'_>) -> Result<()> {
    let (caller, argument) = (row.cell(), row.cell());
    if let "fire_after" | "item_after" = caller {
        return ask_noted(row, case, caller, argument);
    }
    let start = argument.parse()?;
    match caller {
        "first_alarms" => ask_alarms(row, case, start),
        "next_fire" => {
            let fire = next_fire(case.schedule, start, case.zone);
            Ok(add_all(row, "", &[fire])?)
        }
        "count_items" => {
            let most = row.cell().parse()?;
            let count = count_items(case.schedule, start, case.zone, most);
            Ok(row.add("", &count)?)
        }
        _ => ask_items(row, case, caller, start),
    }
}

fn add_ordinals(row: &mut Row<'_>, ordinals: &[Ordinal]) -> Result<()> {
    for ordinal in ordinals {
        row.add(" ", ordinal)?;
    }
    Ok(())
}

/// Adds the answer of a function about the members of a set between two numbers, both included.
fn ask_between(row: &mut Row<'_>, schedule: &Schedule, caller: &str) -> Result<()> {
    let (first, last): (Ordinal, Ordinal) = (row.cell().parse()?, row.cell().parse()?);
    ensure!(first <= last, "the bounds step back");
    match caller {
        "count_hours" => row.add("", &count_hours(schedule, first, last))?,
        "minutes_between" => {
            let minutes = minutes_between(row.alloc(), schedule, first, last)?;
            add_ordinals(row, minutes.as_slice())?;
        }
        _ => {
            let month = greatest_month(schedule, first, last).context("no month")?;
            row.add("", &month)?;
        }
    }
    Ok(())
}

/// Adds the answer of a function about a set.
pub(crate) fn ask_sets(row: &mut Row<'_>, schedule: &Schedule) -> Result<()> {
    let (alloc, caller) = (row.alloc(), row.cell());
    match caller {
        "year_count" => row.add("", &year_count(schedule))?,
        "descending_hours" => add_ordinals(row, descending_hours(alloc, schedule)?.as_slice())?,
        "summer_months" => add_ordinals(row, summer_months(alloc, schedule)?.as_slice())?,
        "some_warm_month" => row.add("", &some_warm_month(schedule).context("no month")?)?,
        "has_thirteenth_month" => row.add("", &has_thirteenth_month(schedule))?,
        _ => ask_between(row, schedule, caller)?,
    }
    Ok(())
}

/// Adds the fault that `fault_of` finds in a line, or nothing, which is compared as `none`.
pub(crate) fn ask_fault(row: &mut Row<'_>) -> Result<()> {
    if let Some(fault) = fault_of(row.alloc(), row.cell())? {
        row.add("", &fault)?;
    }
    Ok(())
}
