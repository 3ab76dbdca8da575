//! Instants as people say them, and spans of one word.

use anyhow::Result;
use cron_answers::instant::instant_of;
use cron_answers::span::{Span, ends_of};
use cron_test_rows::{Row, zone_named};
use jiff::Timestamp;

/// Replays a row, which has a text, a zone, the time now, and the instant of the text.
pub(crate) fn ask(row: &mut Row<'_>) -> Result<()> {
    let text = row.cell();
    let zone = zone_named(row.cell(), &None)?;
    let now = row.cell().parse::<Timestamp>()?;
    match instant_of(text, &zone, now) {
        Some(instant) => Ok(row.add("", &instant)?),
        None => Ok(row.add("", &"none")?),
    }
}

/// Replays a row, which has a word, a zone, the time now, the last instant before the word's span,
/// and the last one in it.
pub(crate) fn ask_span(row: &mut Row<'_>) -> Result<()> {
    let span = Span::Whole(row.cell());
    let zone = zone_named(row.cell(), &None)?;
    let now = row.cell().parse::<Timestamp>()?;
    let Some((start, end)) = ends_of(&span, &zone, now).ok() else {
        return Ok(row.add("", &"none")?);
    };
    row.add("", &start)?;
    Ok(row.add(", ", &end)?)
}
