//! The table of the days and the table of the entries in a year's page.
ghost use Rattle.std.specs.Prelude.{◌≡◌, ◌+◌, ◌++◌, ◌<◌, ◌≤◌, ℕ, List, length, OnOk};
ghost use Rattle.cron_moments.specs.Civil.{days_in_range};
ghost use Rattle.cron_calendar.specs.Html.{day_row, day_rows};
ghost use Rattle.cron_calendar.specs.Pages.{AreRows, entries_text, entry_row, table_text, total_of};
ghost use Rattle.cron_calendar.specs.declared.html.shapes.Shape.{Shape};

use super::escape::push_escaped;
use super::frames::{
    ENTRIES_END, ENTRIES_START, ENTRY_END, ENTRY_NAME, ENTRY_START, ENTRY_STRIP, ENTRY_TOTAL,
    TABLE_END, TABLE_START,
};
use super::maps::strip_of;
use super::pieces::{push_date, push_number, push_text};
use super::shapes::push_drawing;
use super::{Entry, Year};
use cron_moments::civil::{SECONDS_PER_DAY, civil_of};
use std::alloc::{AllocError, Global};

// Appends the row of a day, numbered from 1970-01-01, with its number of fires.
fn push_row(page: &mut Vec<u8>, day: u32, count: u32) -> Result<(), AllocError>
    requires { day < days_in_range }
    ensures { OnOk result (page.new.items ≡ page.old.items ++ day_row day count) }
{
    push_text(page, "<tr><th scope=\"row\">")?;
    push_date(page, civil_of(day * SECONDS_PER_DAY).date())?;
    push_text(page, "</th><td>")?;
    push_number(page, count)?;
    push_text(page, "</td></tr>\n")?;
    Ok(())
}

// Appends a row for each of the days from day `first` on, counted from 1970-01-01. `counts` are
// their numbers of fires.
fn push_rows(page: &mut Vec<u8>, first: u32, counts: &[u32]) -> Result<(), AllocError>
    requires { first + length counts.now ≤ days_in_range }
    ensures { OnOk result (page.new.items ≡ page.old.items ++ day_rows first counts.now) }
{
    for place in 0..counts.len() {
        push_row(page, first + place as u32, counts[place])?;
    }
    Ok(())
}

/// Appends the table with a row for each day of the year.
pub(super) fn push_table(page: &mut Vec<u8>, year: &Year<'_>) -> Result<(), AllocError>
    requires { year.now.first + length year.now.days.now ≤ days_in_range }
    ensures { OnOk result (page.new.items ≡ page.old.items ++ table_text year.now) }
{
    push_text(page, TABLE_START)?;
    push_rows(page, year.first, year.days)?;
    push_text(page, TABLE_END)?;
    Ok(())
}

// The sum of an entry's numbers of fires by day, at most `u32::MAX`.
fn total_of(counts: &[u32]) -> u32
    ensures { result ≡ total_of counts.now }
{
    let mut total = 0u32;
    for count in counts {
        total = total.saturating_add(*count);
    }
    total
}

// Appends the row of an entry: its colour by its place, its name, its number of fires, and the
// strip of its days with fires.
fn push_entry(
    alloc: Global,
    page: &mut Vec<u8>,
    place: usize,
    entry: &Entry<'_>,
) -> Result<(), AllocError>
    ensures { OnOk result ((strip : List Shape)
        × (page.new.items ≡ page.old.items ++ entry_row place entry.now strip)) }
{
    let strip = strip_of(alloc, entry.counts)?;
    push_text(page, ENTRY_START)?;
    push_number(page, place.min(12) as u32)?;
    push_text(page, "\"")?;
    push_text(page, ENTRY_NAME)?;
    push_escaped(page, entry.name)?;
    push_text(page, ENTRY_TOTAL)?;
    push_number(page, total_of(entry.counts))?;
    push_text(page, ENTRY_STRIP)?;
    push_drawing(page, strip.as_slice())?;
    push_text(page, ENTRY_END)?;
    Ok(())
}

// Appends a row for each entry.
fn push_entry_rows(
    alloc: Global,
    page: &mut Vec<u8>,
    entries: &[Entry<'_>],
) -> Result<(), AllocError>
    ensures { OnOk result ((rows : List ℕ) × AreRows 0 entries.now rows
        × (page.new.items ≡ page.old.items ++ rows)) }
{
    for place in 0..entries.len() {
        push_entry(alloc, page, place, &entries[place])?;
    }
    Ok(())
}

/// Appends the table of the entries. Each of the first twelve has its own colour.
pub(super) fn push_entries(
    alloc: Global,
    page: &mut Vec<u8>,
    year: &Year<'_>,
) -> Result<(), AllocError>
    ensures { OnOk result ((rows : List ℕ) × AreRows 0 year.now.entries.now rows
        × (page.new.items ≡ page.old.items ++ entries_text rows)) }
{
    push_text(page, ENTRIES_START)?;
    push_entry_rows(alloc, page, year.entries)?;
    push_text(page, ENTRIES_END)?;
    Ok(())
}
