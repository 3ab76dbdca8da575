//! What schedules, moments and errors show, and schedules as JSON.

use crate::answers::add_bytes;
use crate::scheduled::are_equal;
use crate::words::{bytes_of, moment_of};
use anyhow::Result;
use cron::Schedule;
use cron::error::{Error, ErrorKind};
use cron_test_rows::Row;
use serde_json::Value;

/// Adds the text that a schedule shows, and the source that it gives up.
fn add_source(row: &mut Row<'_>, schedule: Schedule) -> Result<()> {
    let text = schedule.to_string(row.alloc())?;
    add_bytes(row, " ", text.as_bytes())?;
    let source = String::from(schedule);
    Ok(add_bytes(row, " ", source.as_bytes())?)
}

/// Replays a row, which has a text. The answer has whether its schedule and a copy are equal, and
/// the source that the copy and then the schedule show and give up.
pub(crate) fn ask_sources(row: &mut Row<'_>) -> Result<()> {
    let bytes = bytes_of(row.alloc(), row.cell())?;
    let schedule = Schedule::from_str(row.alloc(), str::from_utf8(bytes.as_slice())?)?;
    let copy = schedule.clone()?;
    row.add(" ", &are_equal(&schedule, &copy))?;
    add_source(row, copy)?;
    add_source(row, schedule)
}

/// Replays a row, which has a text, and why it is refused or `read`.
pub(crate) fn ask_read(row: &mut Row<'_>) -> Result<()> {
    match Schedule::from_str(row.alloc(), row.cell()) {
        Ok(_) => row.add("", &"read")?,
        Err(error) => row.add("", &error)?,
    }
    Ok(())
}

/// Replays a row, which has two texts, and whether each of these is equal: the sources, all sets,
/// the days of the month, the days of the week and the years.
pub(crate) fn ask_pair(row: &mut Row<'_>) -> Result<()> {
    let one = Schedule::from_str(row.alloc(), row.cell())?;
    let other = Schedule::from_str(row.alloc(), row.cell())?;
    row.add(" ", &(one == other))?;
    row.add(" ", &one.timeunitspec_eq(&other))?;
    row.add(" ", &(one.days_of_month() == other.days_of_month()))?;
    row.add(" ", &(one.days_of_week() == other.days_of_week()))?;
    Ok(row.add(" ", &(one.years() == other.years()))?)
}

pub(crate) fn ask_json(row: &mut Row<'_>, schedule: &Schedule) -> Result<()> {
    let value = schedule.to_value(row.alloc())?;
    let read = Schedule::from_value(row.alloc(), &value)?;
    row.add(" ", &value)?;
    Ok(row.add(" ", &are_equal(schedule, &read))?)
}

/// Replays a row, which has a JSON value, and why it is refused or `read`.
pub(crate) fn ask_value(row: &mut Row<'_>) -> Result<()> {
    let value = Value::from_str(row.alloc(), row.cell())?;
    match Schedule::from_value(row.alloc(), &value) {
        Ok(_) => row.add("", &"read")?,
        Err(error) => row.add("", &error)?,
    }
    Ok(())
}

/// Replays a row, which has two moments, and whether each of these is equal: their civil seconds,
/// their instants, their offsets, and the moments.
pub(crate) fn ask_moments(row: &mut Row<'_>) -> Result<()> {
    let (one, other) = (moment_of(row.cell())?, moment_of(row.cell())?);
    row.add(" ", &(one.datetime() == other.datetime()))?;
    row.add(" ", &(one.timestamp() == other.timestamp()))?;
    row.add(" ", &(one.offset() == other.offset()))?;
    Ok(row.add(" ", &(one == other))?)
}

/// Replays a row, which has the parts of a moment, and its instant or why there is none.
pub(crate) fn ask_parts(row: &mut Row<'_>) -> Result<()> {
    match moment_of(row.cell()) {
        Ok(moment) => row.add("", &moment.timestamp())?,
        Err(error) => row.add("", &error)?,
    }
    Ok(())
}

/// Replays a row, which has the message of an error, and the text that the error shows.
pub(crate) fn ask_message(row: &mut Row<'_>) -> Result<()> {
    let message = String::from_str(row.alloc(), row.cell())?;
    let error = Error::from(ErrorKind::Expression(message));
    let shown = format!(in row.alloc(); "<{error}>")?;
    Ok(row.add("", &shown)?)
}

/// Replays a row, which has a schedule and a moment. The answer is what both and the error
/// `OutOfMemory` show in format holes with a width, an alignment or a precision.
pub(crate) fn ask_holes(row: &mut Row<'_>) -> Result<()> {
    let schedule = Schedule::from_str(row.alloc(), row.cell())?;
    let moment = moment_of(row.cell())?;
    let error = Error::from(ErrorKind::OutOfMemory);
    row.add("", &matches!(error.kind(), ErrorKind::OutOfMemory))?;
    let shown = format!(in row.alloc(); "{schedule:>9}|{schedule:.2}")?;
    row.add(" ", &shown)?;
    let shown = format!(in row.alloc(); "{error}|{error:^20}|{moment:<30}|")?;
    Ok(row.add("|", &shown)?)
}
