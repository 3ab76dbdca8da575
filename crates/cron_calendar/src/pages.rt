//! The calendar of plans, as text and as a page of HTML.
ghost use Rattle.std.specs.Prelude.{◌≡◌, ◌+◌, ◌*◌, ◌-◌, ◌++◌, ◌<◌, ◌≤◌, IfOk, OnOk, length, map};
ghost use Rattle.std.specs.List.{flat_map};
ghost use Rattle.jiff.specs.Words.{plain_zone};
ghost use Rattle.cron_moments.specs.Calendar.{day_number, first_month, months_end};
ghost use Rattle.cron_moments.specs.Civil.{days_in_range};
ghost use Rattle.cron_calendar.specs.Pages.{IsMonthPage, IsTextPage, IsYearPage, TellsClock, change_line, day_count, named_text, time_of, told_of};
ghost use Rattle.cron_calendar.specs.Json.{day_objects};
ghost use Rattle.cron_calendar.specs.Plans.{counts_of, totals};

use crate::changes::{Change, changes};
use crate::days::push_day_list;
use crate::grid::grid;
use crate::html::month::month_page;
use crate::html::pieces::{push_date, push_text, time_text};
use crate::html::{Entry, Year, page};
use crate::json::push_objects;
use crate::months::Months;
use crate::plans::{Plan, counts_of, hour_totals, shades, totals};
use cron_controls::Controls;
use cron_moments::calendar::KnownMonth;
use cron_moments::civil::{DAYS, SECONDS_PER_DAY, civil_of};
use jiff::civil::DateTime;
use jiff::tz::TimeZone;
use std::alloc::{AllocError, Global};

/// The month after the last one of the range: January 2101. Months are numbered from January of the
/// year 0.
pub const MONTHS_END: u32 = 25_212;

/// Which months are shown, and how.
#[derive(Clone, Copy)]
pub struct Shown {
    /// The first month shown, numbered from January of the year 0.
    pub first: u32,
    /// The month after the last one shown, numbered from January of the year 0.
    pub end: u32,
    /// How many months are side by side, 1 to 12.
    pub across: u32,
    /// Whether numbers of fires are green, by the codes of a terminal.
    pub colour: bool,
    /// How control characters of names are written.
    pub controls: Controls,
}

// The days of the months from `first` up to but without `end`: the number of the first day, counted
// from 1970-01-01, and how many days there are.
fn days_of(first: u32, end: u32) -> (u32, u32)
    requires low { first_month ≤ first }
    requires order { first < end }
    requires high { end ≤ months_end }
    ensures first { result.0 ≡ day_number first 1 }
    ensures days { result.1 ≡ day_count first end }
    ensures range { result.0 + result.1 ≤ days_in_range }
{
    let start = KnownMonth::of_number(first).first_day();
    let behind = if end < MONTHS_END {
        KnownMonth::of_number(end).first_day()
    } else {
        DAYS
    };
    (start, behind.saturating_sub(start))
}

// Appends a civil second, as `2024-03-10T02:00:00`.
fn push_time(text: &mut Vec<u8>, at: DateTime) -> Result<(), AllocError>
    ensures { OnOk result (text.new.items ≡ text.old.items ++ time_of at) }
{
    push_date(text, at.date())?;
    push_text(text, "T")?;
    text.extend_from_slice(&time_text(at.time()))?;
    Ok(())
}

// The end of a change's line. A clock shows the civil seconds of the change `times` times: 0 if it
// skips them, else twice.
fn told_of(times: u32) -> &'static str
    ensures { result.now ≡ told_of times }
{
    if times == 0 {
        ": the clock skips these times\n"
    } else {
        ": the clock shows these times twice\n"
    }
}

// Appends the line of civil seconds that a zone's clock skips, or shows twice.
fn push_change(text: &mut Vec<u8>, change: Change) -> Result<(), AllocError>
    ensures { OnOk result (text.new.items ≡ text.old.items ++ change_line change) }
{
    push_time(text, civil_of(change.first))?;
    push_text(text, " to ")?;
    push_time(text, civil_of(change.end))?;
    push_text(text, told_of(change.times))?;
    Ok(())
}

// Appends a line for each of `changes`.
fn push_changes(text: &mut Vec<u8>, changes: &[Change]) -> Result<(), AllocError>
    ensures { OnOk result
        (text.new.items ≡ text.old.items ++ flat_map change_line changes.now) }
{
    for change in changes {
        push_change(text, *change)?;
    }
    Ok(())
}

// The lines of all changes of the zone's clock on `days` days from day `first` on, counted from
// 1970-01-01. A change is a run of civil seconds that the clock skips, or shows twice.
fn changes_text(
    alloc: Global,
    zone: &TimeZone<'_>,
    first: u32,
    days: u32,
) -> Result<Vec<u8>, AllocError>
    requires { first + days ≤ days_in_range }
    ensures { IfOk result (λ text. TellsClock (plain_zone zone.now) first days text.items) }
{
    let (start, end) = (first * SECONDS_PER_DAY, (first + days) * SECONDS_PER_DAY);
    let found = changes(alloc, zone, start, end)?;
    let mut text = Vec::new(alloc);
    push_changes(&mut text, found.as_slice())?;
    Ok(text)
}

// Appends what fires on each day, if `shown` is one month; else nothing. `days` days from `first` on
// are shown.
fn push_named(
    alloc: Global,
    text: &mut Vec<u8>,
    plans: &[Plan<'_>],
    shown: Shown,
    first: u32,
    days: u32,
    zone: &TimeZone<'_>,
) -> Result<(), AllocError>
    requires months { shown.first < shown.end }
    requires first { first ≡ day_number shown.first 1 }
    requires days { days ≡ day_count shown.first shown.end }
    requires range { first + days ≤ days_in_range }
    ensures { OnOk result (text.new.items
        ≡ text.old.items ++ named_text shown (plain_zone zone.now) plans.now) }
{
    if shown.end - shown.first != 1 {
        return Ok(());
    }
    for day in first..first + days {
        push_day_list(alloc, text, shown.controls, plans, day, zone)?;
    }
    Ok(())
}

/// The page of text: the months with the number of fires of each day, then the civil seconds that
/// the zone's clock skips or shows twice. One month is followed by the entries that fire on each
/// day, with their times.
pub fn text_page(
    alloc: Global,
    plans: &[Plan<'_>],
    shown: Shown,
    zone: &TimeZone<'_>,
) -> Result<Vec<u8>, AllocError>
    requires low { first_month ≤ shown.first }
    requires order { shown.first < shown.end }
    requires high { shown.end ≤ months_end }
    requires across { (0 < shown.across) × (shown.across ≤ 12) }
    ensures { IfOk result
        (λ text. IsTextPage plans.now shown (plain_zone zone.now) text.items) }
{
    let (first_day, days) = days_of(shown.first, shown.end);
    let counts = totals(alloc, plans, first_day, days, zone)?;
    let months = Months {
        first_day,
        counts: counts.as_slice(),
        colour: shown.colour,
    };
    let mut text = grid(alloc, &months, shown.first, shown.end, shown.across)?;
    let told = changes_text(alloc, zone, first_day, days)?;
    text.extend_from_slice(told.as_slice())?;
    push_named(alloc, &mut text, plans, shown, first_day, days, zone)?;
    Ok(text)
}

// For each plan its numbers of fires on each of `days` days from day `first` on, counted from
// 1970-01-01.
fn counts_of_each(
    alloc: Global,
    plans: &[Plan<'_>],
    first: u32,
    days: u32,
    zone: &TimeZone<'_>,
) -> Result<Vec<Vec<u32>>, AllocError>
    requires { first + days ≤ days_in_range }
    ensures { IfOk result (λ each. map (λ counts. counts.items) each.items
        ≡ map (counts_of (plain_zone zone.now) first days) plans.now) }
{
    let mut each = Vec::new(alloc);
    for plan in plans {
        each.push(counts_of(alloc, plan, first, days, zone)?)?;
    }
    Ok(each)
}

// The entries of a page: each plan's name with its numbers of fires by day, which `each` holds.
fn entries_of<'a>(
    alloc: Global,
    plans: &'a [Plan<'a>],
    each: &'a [Vec<u32>],
) -> Result<Vec<Entry<'a>>, AllocError>
    requires { length each.now ≡ length plans.now }
    ensures names { IfOk result (λ entries. map (λ entry. entry.name.now) entries.items
        ≡ map (λ plan. plan.name.now) plans.now) }
    ensures counts { IfOk result (λ entries. map (λ entry. entry.counts.now) entries.items
        ≡ map (λ counts. counts.items) each.now) }
{
    let mut entries = Vec::new(alloc);
    for place in 0..plans.len() {
        entries.push(Entry {
            name: plans[place].name,
            counts: each[place].as_slice(),
        })?;
    }
    Ok(entries)
}

/// The HTML page of a year from 1970 to 2100 in `zone`. The page calls the zone `zone_name`.
pub fn html_page<'a>(
    alloc: Global,
    plans: &'a [Plan<'a>],
    year: u32,
    zone: &TimeZone<'_>,
    zone_name: &'a [u8],
) -> Result<Vec<u8>, AllocError>
    requires { (1970 ≤ year) × (year ≤ 2100) }
    ensures { IfOk result (λ text. IsYearPage plans.now year (plain_zone zone.now)
        zone_name.now text.items) }
{
    let (first, days) = days_of(year * 12, year * 12 + 12);
    let totals = totals(alloc, plans, first, days, zone)?;
    let hours = hour_totals(alloc, plans, first, days, zone)?;
    let each = counts_of_each(alloc, plans, first, days, zone)?;
    let shades = shades(alloc, each.as_slice(), days)?;
    let entries = entries_of(alloc, plans, each.as_slice())?;
    let told = changes_text(alloc, zone, first, days)?;
    let year = Year {
        year,
        zone: zone_name,
        first,
        days: totals.as_slice(),
        shades: shades.as_slice(),
        hours: hours.as_slice(),
        entries: entries.as_slice(),
        changes: told.as_slice(),
    };
    page(alloc, &year)
}

/// The HTML page of a month in `zone`: the entries that fire on each day, with their times. The page
/// calls the zone `zone_name`.
pub fn html_month(
    alloc: Global,
    plans: &[Plan<'_>],
    month: u32,
    zone: &TimeZone<'_>,
    zone_name: &[u8],
) -> Result<Vec<u8>, AllocError>
    requires { (first_month ≤ month) × (month < months_end) }
    ensures { IfOk result (λ text. IsMonthPage plans.now month (plain_zone zone.now)
        zone_name.now text.items) }
{
    let (first, days) = days_of(month, month + 1);
    let told = changes_text(alloc, zone, first, days)?;
    let page = month_page(alloc, plans, month, zone, zone_name, told.as_slice())?;
    Ok(page)
}

/// The days of the months from `first` up to but without `end`, with their numbers of fires, as rows
/// of JSON. Months are numbered from January of the year 0.
pub fn json_rows(
    alloc: Global,
    plans: &[Plan<'_>],
    first: u32,
    end: u32,
    zone: &TimeZone<'_>,
) -> Result<Vec<u8>, AllocError>
    requires low { first_month ≤ first }
    requires order { first < end }
    requires high { end ≤ months_end }
    ensures { IfOk result (λ text. text.items ≡ day_objects (day_number first 1)
        (totals (counts_of (plain_zone zone.now) (day_number first 1) (day_count first end))
        (day_count first end) plans.now)) }
{
    let (start, days) = days_of(first, end);
    let counts = totals(alloc, plans, start, days, zone)?;
    let mut text = Vec::new(alloc);
    push_objects(&mut text, start, counts.as_slice())?;
    Ok(text)
}
