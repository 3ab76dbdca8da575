//! Searches on a timeline, and spans of civil seconds.
//!
//! The row of a span has the instants before and after it, the number of its items, and its first
//! and last second. Its answer has:
//!
//! - the answers of three walks: one from the first instant over all items and to the next one; one
//!   back from the second instant over all items and to the one before; and one that at each item
//!   goes back to the item before and ahead again;
//! - what both searches find from nine seconds of the span;
//! - how many of these seconds are included: those of the items, and those just before and after
//!   each.

use crate::answers::{NOTHING, Tally, add_all, number};
use crate::walks::{add_calls, turns_of};
use crate::words::first_word;
use crate::zoned::Case;
use anyhow::Result;
use cron::queries::Search;
use cron::schedule::Moment;
use cron_test_rows::Row;
use jiff::Timestamp;
use jiff::civil::DateTime;
use jiff::tz::Offset;

/// The civil second with this number, counted from the start of 1970 on.
fn shown(second: i64) -> Result<DateTime> {
    Ok(Offset::UTC.to_datetime(Timestamp::from_second(second)?))
}

/// Adds the answers of `calls` on a new walk from `start`.
fn add_walk(row: &mut Row<'_>, case: Case<'_>, start: Timestamp, calls: &str) -> Result<()> {
    let turns = turns_of(row.alloc(), calls)?;
    let mut walk = case.schedule.after(start, case.zone);
    Ok(add_calls(row, "; ", &mut walk, turns.as_slice())?)
}

/// Adds the answers of the walks ahead, back, and to and fro over `count` items.
fn add_walks(
    row: &mut Row<'_>,
    case: Case<'_>,
    start: Timestamp,
    end: Timestamp,
    count: u32,
) -> Result<()> {
    for (from, calls, last) in [(start, ">", " >"), (end, "<", " <"), (start, "><>", "")] {
        let calls = format!(in row.alloc(); "{count}*{calls}{last}")?;
        add_walk(row, case, from, calls.as_str())?;
    }
    Ok(())
}

/// The one or two readings that a search found.
fn readings(search: Search) -> (Option<Moment>, Option<Moment>) {
    match search.found {
        Some(found) => (Some(found.first), found.second),
        None => (None, None),
    }
}

/// The tally of both searches from nine seconds, evenly spread from `first` to `last`.
fn search_all(case: Case<'_>, first: i64, last: i64) -> Result<Tally> {
    let mut tally = NOTHING;
    let length = last.saturating_sub(first);
    for eighth in 0..9_i64 {
        let from = shown(first.saturating_add(length.saturating_mul(eighth) / 8))?;
        let ahead = case.schedule.first_at_or_after(from, case.zone);
        let back = case.schedule.last_at_or_before(from, case.zone);
        for (one, other) in [readings(ahead), readings(back)] {
            tally.add(&one);
            tally.add(&other);
        }
    }
    Ok(tally)
}

/// The tally of the included seconds among `count` seconds from `first` on, `step` apart.
fn include(case: Case<'_>, first: i64, step: i64, count: u32) -> Result<Tally> {
    let mut tally = NOTHING;
    let mut second = first;
    for _ in 0..count {
        if case.schedule.includes(shown(second)?) {
            tally.add_number(second);
        }
        second = second.saturating_add(step);
    }
    Ok(tally)
}

/// The number of included seconds among those of the first `count` items, and those just before and
/// after each.
fn include_beside(case: Case<'_>, start: Timestamp, count: u32) -> Result<u64> {
    let mut included = 0_u64;
    for item in case.schedule.after(start, case.zone).take(count as usize) {
        let before = number(item.datetime()).saturating_sub(1);
        included = included.saturating_add(include(case, before, 1, 3)?.count);
    }
    Ok(included)
}

pub(crate) fn ask(row: &mut Row<'_>, case: Case<'_>) -> Result<()> {
    let (start, end) = (row.cell().parse()?, row.cell().parse()?);
    let count = row.cell().parse()?;
    let (first, last) = (number(row.cell().parse()?), number(row.cell().parse()?));
    add_walks(row, case, start, end, count)?;
    row.add("; ", &search_all(case, first, last)?)?;
    Ok(row.add("; included ", &include_beside(case, start, count)?)?)
}

pub(crate) fn ask_included(row: &mut Row<'_>, case: Case<'_>) -> Result<()> {
    let first = number(row.cell().parse()?);
    let (step, count) = (row.cell().parse()?, row.cell().parse()?);
    Ok(row.add("", &include(case, first, step, count)?)?)
}

/// Replays a row, which has `first` or `last` and a civil second: the first match at or after it,
/// or the last one at or before it.
pub(crate) fn ask_search(row: &mut Row<'_>, case: Case<'_>) -> Result<()> {
    let (which, from) = first_word(row.cell());
    let from = from.parse()?;
    let search = if which == "first" {
        case.schedule.first_at_or_after(from, case.zone)
    } else {
        case.schedule.last_at_or_before(from, case.zone)
    };
    let (one, other) = readings(search);
    add_all(row, "", &[one])?;
    if other.is_some() {
        add_all(row, ", ", &[other])?;
    }
    Ok(row.add(", conversions ", &search.conversions)?)
}

/// Replays a row, which has a civil second and a number of searches from it on. The answer has the
/// seconds found, the days tested and the look-ups of readings.
pub(crate) fn ask_survey(row: &mut Row<'_>, case: Case<'_>) -> Result<()> {
    let (from, count) = (row.cell().parse()?, row.cell().parse()?);
    let survey = case.schedule.survey(from, case.zone, count);
    row.add("", &"seconds")?;
    row.add(" ", &survey.seconds)?;
    row.add(", days ", &survey.days)?;
    Ok(row.add(", conversions ", &survey.conversions)?)
}
