//! What fires on a day, as a page of text or of HTML names it: the entries with their times. Days
//! are numbered from 1970-01-01.
ghost use Rattle.std.specs.Prelude.{◌≡◌, ◌++◌, ◌<◌, IfOk, OnOk, codes, length};
ghost use Rattle.std.specs.List.{flat_map};
ghost use Rattle.jiff.specs.Words.{plain_zone};
ghost use Rattle.cron_controls.specs.Controls.{shown_by};
ghost use Rattle.cron_moments.specs.Civil.{days_in_range};
ghost use Rattle.cron_calendar.specs.DayLists.{day_head, day_list, entry_item, entry_line, item_text, named_count, rest_text, seconds_on, short_time, times_text};

use crate::html::escape::push_escaped;
use crate::html::pieces::{push_date, push_number, push_text, time_text};
use crate::html::shapes::{Word, word_bytes};
use crate::plans::{Plan, counts_of, number_at};
use crate::times::first_times;
use cron_controls::{Controls, shown_as};
use cron_moments::civil::{SECONDS_PER_DAY, civil_of};
use jiff::tz::TimeZone;
use std::alloc::{AllocError, Global};

/// The most times of an entry that are all named.
const ALL_NAMED: u32 = 6;

/// How many times are named where some are left out.
const FIRST_NAMED: u32 = 3;

// How many of `count` times are named.
fn named_count(count: u32) -> u32
    ensures { result ≡ named_count count }
{
    if count > ALL_NAMED {
        FIRST_NAMED
    } else {
        ALL_NAMED
    }
}

// Appends the time of day of a civil second, without its seconds if these are 0.
fn push_short_time(page: &mut Vec<u8>, second: u32) -> Result<(), AllocError>
    ensures { OnOk result (page.new.items ≡ page.old.items ++ short_time second) }
{
    let text = time_text(civil_of(second).time());
    if second % 60 == 0 {
        page.extend_from_slice(&text[..5])
    } else {
        page.extend_from_slice(&text)
    }
}

// Appends how many of `count` times are left out.
fn push_rest(page: &mut Vec<u8>, count: u32) -> Result<(), AllocError>
    ensures { OnOk result (page.new.items ≡ page.old.items ++ rest_text count) }
{
    if count <= ALL_NAMED {
        return Ok(());
    }
    push_text(page, "and ")?;
    push_number(page, count - FIRST_NAMED)?;
    push_text(page, " more ")
}

// Appends the times of these civil seconds, each with a space after it.
fn push_seconds(page: &mut Vec<u8>, seconds: &[u32]) -> Result<(), AllocError>
    ensures { OnOk result (page.new.items
        ≡ page.old.items ++ flat_map (λ c. short_time c ++ codes " ") seconds.now) }
{
    for second in seconds {
        push_short_time(page, *second)?;
        push_text(page, " ")?;
    }
    Ok(())
}

// The number of fires of a plan on a day.
fn count_on(
    alloc: Global,
    plan: &Plan<'_>,
    day: u32,
    zone: &TimeZone<'_>,
) -> Result<u32, AllocError>
    requires { day < days_in_range }
    ensures { IfOk result (λ count. count ≡ length (seconds_on (plain_zone zone.now) day plan.now)) }
{
    let counts = counts_of(alloc, plan, day, 1, zone)?;
    Ok(number_at(counts.as_slice(), 0))
}

// Appends the times of a plan's fires on a day; of many the first alone, and how many are left out.
// `count` is the number of all.
fn push_times(
    alloc: Global,
    page: &mut Vec<u8>,
    plan: &Plan<'_>,
    count: u32,
    day: u32,
    zone: &TimeZone<'_>,
) -> Result<(), AllocError>
    requires day { day < days_in_range }
    requires count { count ≡ length (seconds_on (plain_zone zone.now) day plan.now) }
    ensures { OnOk result (page.new.items
        ≡ page.old.items ++ times_text (seconds_on (plain_zone zone.now) day plan.now)) }
{
    let times = first_times(alloc, plan, day, named_count(count) as usize, zone)?;
    push_seconds(page, times.as_slice())?;
    push_rest(page, count)
}

// Appends the line of a plan that fires on a day; nothing if it doesn't fire.
fn push_line(
    alloc: Global,
    page: &mut Vec<u8>,
    controls: Controls,
    plan: &Plan<'_>,
    day: u32,
    zone: &TimeZone<'_>,
) -> Result<(), AllocError>
    requires { day < days_in_range }
    ensures { OnOk result (page.new.items
        ≡ page.old.items ++ entry_line controls (plain_zone zone.now) day plan.now) }
{
    let count = count_on(alloc, plan, day, zone)?;
    if count == 0 {
        return Ok(());
    }
    push_text(page, "  ")?;
    push_times(alloc, page, plan, count, day, zone)?;
    push_text(page, " ")?;
    page.extend_from_slice(shown_name(alloc, controls, plan.name)?.as_slice())?;
    push_text(page, "\n")
}

// A plan's name, with its control characters written as `controls` says.
fn shown_name(alloc: Global, controls: Controls, name: &[u8]) -> Result<Vec<u8>, AllocError>
    ensures { IfOk result (λ shown. shown.items ≡ shown_by controls name.now) }
{
    let mut copy = Vec::new(alloc);
    copy.extend_from_slice(name)?;
    shown_as(alloc, controls, copy)
}

// Appends a line for each plan that fires on a day.
fn push_lines(
    alloc: Global,
    page: &mut Vec<u8>,
    controls: Controls,
    plans: &[Plan<'_>],
    day: u32,
    zone: &TimeZone<'_>,
) -> Result<(), AllocError>
    requires { day < days_in_range }
    ensures { OnOk result (page.new.items ≡ page.old.items
        ++ flat_map (entry_line controls (plain_zone zone.now) day) plans.now) }
{
    for plan in plans {
        push_line(alloc, page, controls, plan, day, zone)?;
    }
    Ok(())
}

// Appends the line of a day: its weekday and its date.
fn push_day_head(page: &mut Vec<u8>, day: u32) -> Result<(), AllocError>
    requires { day < days_in_range }
    ensures { OnOk result (page.new.items ≡ page.old.items ++ day_head day) }
{
    push_text(page, word_bytes(Word::Weekday((day + 3) % 7)))?;
    push_text(page, " ")?;
    push_date(page, civil_of(day * SECONDS_PER_DAY).date())?;
    push_text(page, "\n")
}

/// Appends a day and below it a line for each plan that fires on it, with its times and its name.
/// Appends nothing if none fires.
pub(crate) fn push_day_list(
    alloc: Global,
    page: &mut Vec<u8>,
    controls: Controls,
    plans: &[Plan<'_>],
    day: u32,
    zone: &TimeZone<'_>,
) -> Result<(), AllocError>
    requires { day < days_in_range }
    ensures { OnOk result (page.new.items
        ≡ page.old.items ++ day_list controls (plain_zone zone.now) plans.now day) }
{
    let mut lines = Vec::new(alloc);
    push_lines(alloc, &mut lines, controls, plans, day, zone)?;
    if lines.is_empty() {
        return Ok(());
    }
    push_day_head(page, day)?;
    page.extend_from_slice(lines.as_slice())
}

// Appends a plan as HTML: the times of its fires on a day, and its name. `count` is the number of
// these fires.
fn push_some_item(
    alloc: Global,
    page: &mut Vec<u8>,
    plan: &Plan<'_>,
    count: u32,
    day: u32,
    zone: &TimeZone<'_>,
) -> Result<(), AllocError>
    requires day { day < days_in_range }
    requires count { count ≡ length (seconds_on (plain_zone zone.now) day plan.now) }
    ensures { OnOk result (page.new.items
        ≡ page.old.items ++ item_text (plain_zone zone.now) day plan.now) }
{
    push_text(page, "<p>")?;
    push_times(alloc, page, plan, count, day, zone)?;
    push_text(page, "<code>")?;
    push_escaped(page, plan.name)?;
    push_text(page, "</code></p>")?;
    Ok(())
}

// Appends a plan that fires on a day, as HTML; nothing if it doesn't fire.
fn push_item(
    alloc: Global,
    page: &mut Vec<u8>,
    plan: &Plan<'_>,
    day: u32,
    zone: &TimeZone<'_>,
) -> Result<(), AllocError>
    requires { day < days_in_range }
    ensures { OnOk result (page.new.items
        ≡ page.old.items ++ entry_item (plain_zone zone.now) day plan.now) }
{
    let count = count_on(alloc, plan, day, zone)?;
    if count == 0 {
        return Ok(());
    }
    push_some_item(alloc, page, plan, count, day, zone)?;
    Ok(())
}

/// Appends the plans that fire on a day, each with its times, as HTML.
pub(crate) fn push_items(
    alloc: Global,
    page: &mut Vec<u8>,
    plans: &[Plan<'_>],
    day: u32,
    zone: &TimeZone<'_>,
) -> Result<(), AllocError>
    requires { day < days_in_range }
    ensures { OnOk result (page.new.items ≡ page.old.items
        ++ flat_map (entry_item (plain_zone zone.now) day) plans.now) }
{
    for plan in plans {
        push_item(alloc, page, plan, day, zone)?;
    }
    Ok(())
}
