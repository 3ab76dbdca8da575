//! Runs, pages and answers of `cron_walk_listing`, with writers that may fail. Their rows have how
//! they end, and what the writer was handed.

use crate::words::{arguments_of, bytes_of, first_word, moment_of};
use crate::writers::Limited;
use crate::zoned::Case;
use anyhow::Result;
use cron_test_rows::Row;
use cron_walk_listing::answer::answer;
use cron_walk_listing::page::page;
use cron_walk_listing::run::{Page, run};
use cron_writer::watched::Watched;
use jiff::Timestamp;
use jiff::tz::TimeZone;

/// Replays a row, which has the expression, the number of items after the start of 2020, and the
/// writer.
pub(crate) fn ask_run(row: &mut Row<'_>) -> Result<()> {
    let (alloc, zone) = (row.alloc(), TimeZone::UTC);
    let start = "2020-01-01T00:00:00Z".parse::<Timestamp>()?;
    let text = bytes_of(alloc, row.cell())?;
    let text = str::from_utf8(text.as_slice())?;
    let count = row.cell().parse()?;
    let mut out = Watched::new(Limited::of(row)?);
    let outcome = run(alloc, text, start, &zone, count, false, &mut out);
    let outcome = format!(in alloc; "{outcome:?}")?;
    row.add("", &outcome)?;
    row.add(" ", &out.has_failed())?;
    out.into_inner().add_to(row)
}

/// Replays a row, which has the item, the size, the way (`back` or ahead), and the writer.
pub(crate) fn ask_page(row: &mut Row<'_>, case: Case<'_>) -> Result<()> {
    let item = moment_of(row.cell())?;
    let (size, way) = first_word(row.cell());
    let size = size.parse()?;
    let mut out = Watched::new(Limited::of(row)?);
    match page(
        case.schedule,
        &item,
        case.zone,
        size,
        way == "back",
        &mut out,
    ) {
        Page::Listed(last) => {
            row.add("", &"up to")?;
            row.add(" ", &last)?;
        }
        Page::NotAnItem => row.add("", &"no item")?,
        Page::WriteFailed => row.add("", &"failed")?,
    }
    out.into_inner().add_to(row)
}

/// Replays a row, which has the arguments and the writer.
pub(crate) fn ask_answer(row: &mut Row<'_>) -> Result<()> {
    let arguments = arguments_of(row.alloc(), row.cell())?;
    let mut out = Watched::new(Limited::of(row)?);
    let status = answer(row.alloc(), arguments.as_slice(), &mut out);
    row.add("", &status.code())?;
    out.into_inner().add_to(row)
}
