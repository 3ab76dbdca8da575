//! What the arguments of command lines ask for.

use crate::words::arguments_of;
use anyhow::Result;
use cron_test_rows::Row;
use cron_walk_listing::arguments::request_of;

/// A row has the arguments of `cron_next`, and what they ask for: the expression, the second of the
/// start, the zone's offset there, the number of items, and whether they go back.
pub(crate) fn ask_listing(row: &mut Row<'_>) -> Result<()> {
    let arguments = arguments_of(row.alloc(), row.cell())?;
    let Some(asked) = request_of(arguments.as_slice()) else {
        return Ok(row.add("", &"wrong")?);
    };
    let expression = format!(in row.alloc(); "{:?}", asked.expression)?;
    row.add("", &expression)?;
    row.add(" ", &asked.start.as_second())?;
    row.add(" ", &asked.zone.to_offset(asked.start).seconds())?;
    row.add(" ", &asked.count)?;
    Ok(row.add(" ", &asked.back)?)
}
