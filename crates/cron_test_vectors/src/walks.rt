//! Walks, and the answers of their calls. Calls are `>` for the next item and `<` for the one
//! before; `3*><` makes both three times.

use crate::answers::add_all;
use crate::words::moment_of;
use crate::zoned::Case;
use anyhow::{Context, Result};
use cron::schedule::Turn;
use cron::{ScheduleIterator, laws};
use cron_test_rows::{Row, zone_file, zone_named};
use jiff::Timestamp;
use jiff::tz::TimeZone;
use std::alloc::{AllocError, Global};

fn turn_of(call: char) -> Turn {
    if call == '<' {
        Turn::NextBack
    } else {
        Turn::Next
    }
}

/// The calls that `words` describe.
pub(crate) fn turns_of(alloc: Global, words: &str) -> Result<Vec<Turn>> {
    let mut turns = Vec::new(alloc);
    for word in words.split(' ') {
        let (times, calls) = word.split_once('*').unwrap_or(("1", word));
        for _ in 0..times.parse::<u32>()? {
            turns.extend(calls.chars().map(turn_of))?;
        }
    }
    Ok(turns)
}

/// Makes the calls one by one, and adds their answers.
pub(crate) fn add_calls(
    row: &mut Row<'_>,
    separator: &str,
    walk: &mut ScheduleIterator<'_>,
    turns: &[Turn],
) -> Result<(), AllocError> {
    let mut answers = Vec::with_capacity(row.alloc(), turns.len())?;
    for turn in turns {
        let answer = match turn {
            Turn::Next => walk.next(),
            Turn::NextBack => walk.next_back(),
        };
        answers.push(answer)?;
    }
    add_all(row, separator, answers.as_slice())
}

pub(crate) fn ask(row: &mut Row<'_>, case: Case<'_>) -> Result<()> {
    let start = row.cell().parse::<Timestamp>()?;
    let turns = turns_of(row.alloc(), row.cell())?;
    let mut walk = case.schedule.after(start, case.zone);
    Ok(add_calls(row, "", &mut walk, turns.as_slice())?)
}

pub(crate) fn ask_resumed(row: &mut Row<'_>, case: Case<'_>) -> Result<()> {
    let item = moment_of(row.cell())?;
    let turns = turns_of(row.alloc(), row.cell())?;
    match case.schedule.resume(&item, case.zone) {
        Some(mut walk) => add_calls(row, "", &mut walk, turns.as_slice())?,
        None => row.add("", &"no item")?,
    }
    Ok(())
}

/// Adds what the clock shows at an item, its instant and its offset.
pub(crate) fn ask_parts(row: &mut Row<'_>, case: Case<'_>) -> Result<()> {
    let start = row.cell().parse::<Timestamp>()?;
    let mut walk = case.schedule.after(start, case.zone);
    let item = if row.cell() == "<" {
        walk.next_back()
    } else {
        walk.next()
    };
    let item = item.context("no item")?;
    row.add(" ", &item.datetime())?;
    row.add(" ", &item.timestamp())?;
    Ok(row.add(" ", &item.offset().seconds())?)
}

fn ask_headline_in(row: &mut Row<'_>, text: &str, zone: &TimeZone<'_>) -> Result<()> {
    let start = row.cell().parse::<Timestamp>()?;
    let turns = turns_of(row.alloc(), row.cell())?;
    match laws::headline(row.alloc(), text, start, zone, turns.as_slice()) {
        Ok(answers) => add_all(row, "", answers.as_slice())?,
        Err(error) => row.add("", &error)?,
    }
    Ok(())
}

/// Adds the answers of the law `headline` for a text in a zone, or why the text is refused.
pub(crate) fn ask_headline(row: &mut Row<'_>) -> Result<()> {
    let (text, name) = (row.cell(), row.cell());
    let file = zone_file(row, name)?;
    let zone = zone_named(name, &file)?;
    ask_headline_in(row, text, &zone)
}
