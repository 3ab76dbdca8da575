//! The page of a year: heat maps by day and by hour, its entries, and a table of its days. It needs
//! no network and no script. Its contents are proved, except which numbers the strips of entries
//! and the table by weekday and hour show, and where the map's labels are: these are only tested.

ghost use Rattle.std.specs.Prelude.{◌≡◌, ◌+◌, ◌++◌, ◌≤◌, List, IfOk, OnOk, length};
ghost use Rattle.std.specs.Fmt.{decimal};
ghost use Rattle.cron_moments.specs.Civil.{days_in_range};
ghost use Rattle.cron_calendar.specs.Pages.{IsPage, clock_text, scale_end, days_start, days_text, head_text, hours_text};
ghost use Rattle.cron_calendar.specs.declared.html.shapes.Shape.{Shape};

pub(crate) mod escape;
mod frames;
mod maps;
pub(crate) mod month;
pub(crate) mod pieces;
pub(crate) mod shapes;
mod style;
mod tables;

use crate::html::escape::push_escaped;
use crate::html::frames::{
    CLOCK_END, CLOCK_START, DAYS_END, DAYS_SCALE, DAYS_START, HEAD_END, HEAD_START, HEAD_STYLE,
    HEAD_TITLE, HEAD_ZONE, HOURS_END, HOURS_START, PAGE_END, SHADES_END, SHADES_START,
};
use crate::html::maps::{days_map, hours_map, most_of};
use crate::html::pieces::{number_text, push_number, push_text};
use crate::html::shapes::push_drawing;
use crate::html::style::STYLE;
use crate::html::tables::{push_entries, push_table};
use std::alloc::{AllocError, Global};

/// How many fires an entry has on each day of the year.
#[derive(Clone, Copy)]
pub struct Entry<'a> {
    /// The entry's name on the page.
    pub name: &'a [u8],
    pub counts: &'a [u32],
}

/// What the page of a year shows.
#[derive(Clone, Copy)]
pub struct Year<'a> {
    /// The year, 1970 to 2100.
    pub year: u32,
    /// The name of the zone on the page.
    pub zone: &'a [u8],
    /// The number of the year's first day, counted from 1970-01-01.
    pub first: u32,
    /// The number of fires on each day of the year, from the first on.
    pub days: &'a [u32],
    /// The numbers by which the days are shaded.
    pub shades: &'a [u32],
    /// The number of fires in each hour of the year, 24 hours a day.
    pub hours: &'a [u32],
    /// The entries whose fires are counted.
    pub entries: &'a [Entry<'a>],
    /// The lines that say which civil seconds the zone's clock skips, or shows twice.
    pub changes: &'a [u8],
}

// Appends the beginning of a page of `shown`, such as a year, up to what follows the zone.
fn push_head(page: &mut Vec<u8>, shown: &[u8], zone: &[u8]) -> Result<(), AllocError>
    ensures { OnOk result (page.new.items ≡ page.old.items ++ head_text shown.now zone.now) }
{
    push_text(page, HEAD_START)?;
    page.extend_from_slice(shown)?;
    push_text(page, HEAD_STYLE)?;
    push_text(page, STYLE)?;
    push_text(page, HEAD_TITLE)?;
    page.extend_from_slice(shown)?;
    push_text(page, HEAD_ZONE)?;
    push_escaped(page, zone)?;
    push_text(page, HEAD_END)?;
    Ok(())
}

// The text before the map of days: of one entry it shows fires, else entries.
fn days_start(entries: &[Entry<'_>]) -> &'static str
    ensures { result.now ≡ days_start entries.now }
{
    if entries.len() == 1 {
        DAYS_START
    } else {
        SHADES_START
    }
}

// The text behind the greatest number of the map of days.
fn days_end(entries: &[Entry<'_>]) -> &'static str
    ensures { result.now ≡ scale_end entries.now }
{
    if entries.len() == 1 {
        DAYS_END
    } else {
        SHADES_END
    }
}

// Appends the heat map by day: a drawing with a square for each day of the year.
fn push_days_map(alloc: Global, page: &mut Vec<u8>, year: &Year<'_>) -> Result<(), AllocError>
    requires { (1970 ≤ year.now.year) × (year.now.year ≤ 2100) }
    ensures { OnOk result ((labels : List Shape)
        × (page.new.items ≡ page.old.items ++ days_text year.now labels)) }
{
    let shapes = days_map(alloc, year)?;
    push_text(page, days_start(year.entries))?;
    push_drawing(page, shapes.as_slice())?;
    push_text(page, DAYS_SCALE)?;
    push_number(page, most_of(year.shades))?;
    push_text(page, days_end(year.entries))?;
    Ok(())
}

// Appends the heat map by weekday and hour, which is a table.
fn push_hours_map(alloc: Global, page: &mut Vec<u8>, year: &Year<'_>) -> Result<(), AllocError>
    requires { (1970 ≤ year.now.year) × (year.now.year ≤ 2100) }
    ensures { OnOk result ((shapes : List Shape)
        × (page.new.items ≡ page.old.items ++ hours_text shapes)) }
{
    let shapes = hours_map(alloc, year)?;
    push_text(page, HOURS_START)?;
    push_drawing(page, shapes.as_slice())?;
    push_text(page, HOURS_END)?;
    Ok(())
}

// Appends the section that says which civil seconds the zone's clock skips, or shows twice.
fn push_changes(page: &mut Vec<u8>, changes: &[u8]) -> Result<(), AllocError>
    ensures { OnOk result (page.new.items ≡ page.old.items ++ clock_text changes.now) }
{
    push_text(page, CLOCK_START)?;
    push_escaped(page, changes)?;
    push_text(page, CLOCK_END)?;
    Ok(())
}

/// The HTML page of a year from 1970 to 2100.
pub fn page(alloc: Global, year: &Year<'_>) -> Result<Vec<u8>, AllocError>
    requires year { (1970 ≤ year.now.year) × (year.now.year ≤ 2100) }
    requires days { year.now.first + length year.now.days.now ≤ days_in_range }
    ensures { IfOk result (λ page. IsPage year.now page.items) }
{
    let shown = number_text(alloc, year.year)?;
    let mut page = Vec::new(alloc);
    push_head(&mut page, shown.as_slice(), year.zone)?;
    push_entries(alloc, &mut page, year)?;
    push_days_map(alloc, &mut page, year)?;
    push_hours_map(alloc, &mut page, year)?;
    push_changes(&mut page, year.changes)?;
    push_table(&mut page, year)?;
    push_text(&mut page, PAGE_END)?;
    Ok(page)
}
