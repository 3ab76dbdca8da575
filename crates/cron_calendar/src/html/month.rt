//! The page of a month: a table of its days, with the entries that fire on each. Months are numbered
//! from January of the year 0.
ghost use Rattle.std.specs.Prelude.{◌≡◌, ◌+◌, ◌-◌, ◌*◌, ◌++◌, ◌<◌, ◌≤◌, IfOk, OnOk, Some};
ghost use Rattle.jiff.specs.Words.{plain_zone};
ghost use Rattle.cron_moments.specs.Calendar.{day_number, first_month, length_of, months_end};
ghost use Rattle.cron_moments.specs.Civil.{days_in_range};
ghost use Rattle.cron_calendar.specs.Grids.{day_at, from_to};
ghost use Rattle.cron_calendar.specs.Pages.{clock_text, head_text, month_cell, month_table, month_words, week_cells};
ghost use Rattle.cron_calendar.specs.declared.html.frames.TheConstants.{PAGE_END as Last};

use super::frames::{MONTH_END, MONTH_START, PAGE_END};
use super::pieces::{push_number, push_text};
use super::shapes::{Word, word_bytes};
use super::{push_changes, push_head};
use crate::days::push_items;
use crate::months::day_at;
use crate::plans::Plan;
use cron_moments::calendar::KnownMonth;
use jiff::tz::TimeZone;
use std::alloc::{AllocError, Global};

// The number of a day of a month, counted from 1970-01-01.
fn number_of(month: u32, day: u32) -> u32
    requires month { (first_month ≤ month) × (month < months_end) }
    requires day { (1 ≤ day) × (day ≤ length_of month) }
    ensures value { result ≡ day_number month 1 + day - 1 }
    ensures range { result < days_in_range }
{
    KnownMonth::of_number(month).first_day() + day - 1
}

// Appends the cell of a day of a month.
fn push_day(
    alloc: Global,
    page: &mut Vec<u8>,
    plans: &[Plan<'_>],
    month: u32,
    day: u32,
    zone: &TimeZone<'_>,
) -> Result<(), AllocError>
    requires month { (first_month ≤ month) × (month < months_end) }
    requires day { (1 ≤ day) × (day ≤ length_of month) }
    ensures { OnOk result (page.new.items
        ≡ page.old.items ++ month_cell (plain_zone zone.now) plans.now month (Some day)) }
{
    push_text(page, "<td><b>")?;
    push_number(page, day)?;
    push_text(page, "</b>")?;
    push_items(alloc, page, plans, number_of(month, day), zone)?;
    push_text(page, "</td>")?;
    Ok(())
}

// Appends the cell of a place of a month's grid, which is empty if no day is there.
fn push_cell(
    alloc: Global,
    page: &mut Vec<u8>,
    plans: &[Plan<'_>],
    month: u32,
    place: u32,
    zone: &TimeZone<'_>,
) -> Result<(), AllocError>
    requires { (first_month ≤ month) × (month < months_end) }
    ensures { OnOk result (page.new.items
        ≡ page.old.items ++ month_cell (plain_zone zone.now) plans.now month (day_at month place)) }
{
    match day_at(month, place) {
        Some(day) => push_day(alloc, page, plans, month, day, zone),
        None => push_text(page, "<td></td>"),
    }
}

// Appends the cells of a week of a month; weeks are counted from 0.
fn push_cells(
    alloc: Global,
    page: &mut Vec<u8>,
    plans: &[Plan<'_>],
    month: u32,
    week: u32,
    zone: &TimeZone<'_>,
) -> Result<(), AllocError>
    requires month { (first_month ≤ month) × (month < months_end) }
    requires week { week < 6 }
    ensures { OnOk result (page.new.items ≡ page.old.items ++ from_to
        (λ column. month_cell (plain_zone zone.now) plans.now month (day_at month (week * 7 + column)))
        0 7) }
{
    for column in 0..7 {
        push_cell(alloc, page, plans, month, week * 7 + column, zone)?;
    }
    Ok(())
}

// Appends the row of a week of a month; weeks are counted from 0.
fn push_week(
    alloc: Global,
    page: &mut Vec<u8>,
    plans: &[Plan<'_>],
    month: u32,
    week: u32,
    zone: &TimeZone<'_>,
) -> Result<(), AllocError>
    requires month { (first_month ≤ month) × (month < months_end) }
    requires week { week < 6 }
    ensures { OnOk result (page.new.items
        ≡ page.old.items ++ week_cells (plain_zone zone.now) plans.now month week) }
{
    push_text(page, "<tr>")?;
    push_cells(alloc, page, plans, month, week, zone)?;
    push_text(page, "</tr>\n")?;
    Ok(())
}

// Appends the rows of the weeks of a month.
fn push_weeks(
    alloc: Global,
    page: &mut Vec<u8>,
    plans: &[Plan<'_>],
    month: u32,
    zone: &TimeZone<'_>,
) -> Result<(), AllocError>
    requires { (first_month ≤ month) × (month < months_end) }
    ensures { OnOk result (page.new.items
        ≡ page.old.items ++ from_to (week_cells (plain_zone zone.now) plans.now month) 0 6) }
{
    for week in 0..6 {
        push_week(alloc, page, plans, month, week, zone)?;
    }
    Ok(())
}

// Appends the table of a month's days.
fn push_days(
    alloc: Global,
    page: &mut Vec<u8>,
    plans: &[Plan<'_>],
    month: u32,
    zone: &TimeZone<'_>,
) -> Result<(), AllocError>
    requires { (first_month ≤ month) × (month < months_end) }
    ensures { OnOk result (page.new.items
        ≡ page.old.items ++ month_table (plain_zone zone.now) plans.now month) }
{
    push_text(page, MONTH_START)?;
    push_weeks(alloc, page, plans, month, zone)?;
    push_text(page, MONTH_END)?;
    Ok(())
}

// A month, as `Mar 2024`.
fn month_words(alloc: Global, month: u32) -> Result<Vec<u8>, AllocError>
    ensures { IfOk result (λ words. words.items ≡ month_words month) }
{
    let mut words = Vec::new(alloc);
    push_text(&mut words, word_bytes(Word::Month(month % 12)))?;
    push_text(&mut words, " ")?;
    push_number(&mut words, month / 12)?;
    Ok(words)
}

/// The HTML page of a month. `changes` are the lines that say which civil seconds the zone's clock
/// skips, or shows twice.
pub(crate) fn month_page(
    alloc: Global,
    plans: &[Plan<'_>],
    month: u32,
    zone: &TimeZone<'_>,
    zone_name: &[u8],
    changes: &[u8],
) -> Result<Vec<u8>, AllocError>
    requires { (first_month ≤ month) × (month < months_end) }
    ensures { IfOk result (λ page. page.items
        ≡ head_text (month_words month) zone_name.now
        ++ (month_table (plain_zone zone.now) plans.now month
        ++ (clock_text changes.now ++ Last.now))) }
{
    let words = month_words(alloc, month)?;
    let mut page = Vec::new(alloc);
    push_head(&mut page, words.as_slice(), zone_name)?;
    push_days(alloc, &mut page, plans, month, zone)?;
    push_changes(&mut page, changes)?;
    push_text(&mut page, PAGE_END)?;
    Ok(page)
}
