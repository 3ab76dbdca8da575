//! Walks and their answers, and single searches. A row of a walk has five parts:
//!
//! - the expression;
//! - the zone, as `UTC`, a place, `fixed` and the seconds ahead of UTC, or a rule text;
//! - the start;
//! - the calls, `>` for the next item and `<` for the one before;
//! - the answers to these calls.
//!
//! The answers of `walks_utc.txt`, `walks_fixed.txt` and `walks_rules.txt` were made by version
//! 0.17.0 of the Rust crate `cron`. Their starts were chosen on items, between them and far from
//! them, with and without a part of a second. Other starts are at the transitions of the zones,
//! before the first year and after the last one.
//!
//! That crate answers the walks of the three files `walks_mended_*.txt` wrongly. Their answers were
//! made by a copy of the crate without three faults. To all other walks the copy gives the crate's
//! answers.
//!
//! - Late starts: the crate keeps the month, the day and the time of the start when it goes back to
//!   an earlier year, so it misses the items late in that year.
//! - Early starts: it takes a year below 0 for a year far ahead.
//! - Turns: when the calls change their direction in an hour that a clock shows twice, it keeps the
//!   other reading of this hour.
//!
//! `walks_zone_turns.txt` has the transitions of 2025 and 2026 in twelve places, and some midnights
//! of places without transitions, from the zone database of an ordinary system (2025b).
//!
//! `walks_of_eight_calls.txt` has every list of eight calls from four starts about a fold of four
//! items. Its answers are those of an index that is moved along these items.

use crate::fires::add;
use crate::instants::start_at;
use crate::texts::compare_beginnings;
use anyhow::{Result, bail};
use cron::schedule::Turn;
use cron::{OwnedScheduleIterator, Schedule, ScheduleIterator};
use cron_test_rows::{Row, zone_file, zone_named};
use jiff::Timestamp;
use jiff::civil::DateTime;
use jiff::tz::TimeZone;

fn ask_walk(row: &mut Row<'_>, maker: &str, walk: ScheduleIterator<'_>, calls: &str) -> Result<()> {
    let mut walk = walk;
    for call in calls.chars() {
        let answer = if call == '<' {
            walk.next_back()
        } else {
            walk.next()
        };
        add(row, &answer)?;
    }
    row.check(maker)
}

fn ask_owned(
    row: &mut Row<'_>,
    maker: &str,
    walk: OwnedScheduleIterator<'_>,
    calls: &str,
) -> Result<()> {
    let mut walk = walk;
    for call in calls.chars() {
        let answer = if call == '<' {
            walk.next_back()
        } else {
            walk.next()
        };
        add(row, &answer)?;
    }
    row.check(maker)
}

/// Compares the answers of reversed walks: `<` calls their `next`, and `>` their `next_back`.
fn ask_reversed<'x>(
    row: &mut Row<'_>,
    schedule: &'x Schedule,
    zone: &'x TimeZone<'x>,
    start: Timestamp,
    calls: &str,
) -> Result<()> {
    let mut walk = schedule.after(start, zone).rev();
    for call in calls.chars() {
        let answer = if call == '<' {
            walk.next()
        } else {
            walk.next_back()
        };
        add(row, &answer)?;
    }
    row.check("rev")?;
    let mut walk = schedule.after_owned(start, *zone)?.rev();
    for call in calls.chars() {
        let answer = if call == '<' {
            walk.next()
        } else {
            walk.next_back()
        };
        add(row, &answer)?;
    }
    row.check("rev, owned")
}

/// Replays a row on each kind of walk: call by call, and on one walk by a single call of `play`.
pub(crate) fn ask(row: &mut Row<'_>) -> Result<()> {
    let (text, name) = (row.cell(), row.cell());
    let file = zone_file(row, name)?;
    let zone = zone_named(name, &file)?;
    let start = start_at(row.cell(), &zone)?;
    let calls = row.cell();
    let schedule = Schedule::from_str(row.alloc(), text)?;
    ask_walk(row, "after", schedule.after(start, &zone), calls)?;
    ask_walk(row, "upcoming", schedule.upcoming(start, &zone), calls)?;
    ask_owned(
        row,
        "after_owned",
        schedule.after_owned(start, zone)?,
        calls,
    )?;
    let walk = schedule.upcoming_owned(start, zone)?;
    ask_owned(row, "upcoming_owned", walk, calls)?;
    let walk = OwnedScheduleIterator::new(schedule.clone()?, start, zone);
    ask_owned(row, "new", walk, calls)?;
    ask_reversed(row, &schedule, &zone, start, calls)?;
    let mut turns = Vec::new(row.alloc());
    for call in calls.chars() {
        turns.push(match call {
            '>' => Turn::Next,
            '<' => Turn::NextBack,
            other => bail!("{other:?} is no call"),
        })?;
    }
    let mut walk = schedule.after(start, &zone);
    for answer in walk.play(row.alloc(), turns.as_slice())? {
        add(row, &answer)?;
    }
    row.check("play")?;
    compare_beginnings(row, text)
}

/// Replays a single search, with its counts of tried dates and of look-ups of readings.
pub(crate) fn ask_search(row: &mut Row<'_>, way: &str) -> Result<()> {
    let (text, name) = (row.cell(), row.cell());
    let file = zone_file(row, name)?;
    let zone = zone_named(name, &file)?;
    let from = row.cell().parse::<DateTime>()?;
    let schedule = Schedule::from_str(row.alloc(), text)?;
    let search = if way == "back" {
        schedule.last_at_or_before(from, &zone)
    } else {
        schedule.first_at_or_after(from, &zone)
    };
    match &search.found {
        Some(found) => {
            row.add("", &found.first)?;
            if let Some(second) = &found.second {
                row.add(", ", second)?;
            }
        }
        None => row.add("", &"none")?,
    }
    row.add(", conversions ", &search.conversions)?;
    row.add(", days ", &search.days)?;
    row.check(way)?;
    compare_beginnings(row, text)
}
