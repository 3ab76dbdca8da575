//! Texts and their answers. An answer is the seven sets from the seconds to the years, or the
//! message of the refusal. A star stands for the whole range, and a run of neighbours is written by
//! its ends.
//!
//! The set of days of the month ends with an `L` if it has the last day of each month.
//!
//! The answers of the files of shorthands, units, names, faults, spaces and random texts were made
//! by version 0.17.0 of the Rust crate `cron`. It has no message of its own for a text outside its
//! grammar, so `Invalid cron expression.` was written there. It refuses `L` in days of the month,
//! `@annually` and `@midnight`. The few texts with these were answered by the rules for them.
//!
//! The texts were chosen for each rule and each unit: the least and the greatest value and one
//! beyond, leading zeros, and the greatest numbers that a word of 32 bits holds. There are ranges,
//! steps, lists, names in each spelling, white space at each place, and texts with several faults.
//! The other texts are random; half of them are an accepted text with a few changed characters.

use anyhow::Result;
use cron::error::{Error, ErrorKind};
use cron::{Schedule, TimeUnitSpec};
use cron_test_rows::Row;
use std::alloc::{AllocError, Global};
use std::borrow::CowStr;

/// The readers. `try_from_cow` is listed twice: for borrowed and for owned texts.
pub(crate) const READERS: [&str; 5] = [
    "from_str",
    "try_from_str",
    "try_from_string",
    "try_from_cow, borrowed",
    "try_from_cow, owned",
];

/// Reads `text` with the reader of this name, or with `from_str` if the name is no other reader's.
pub(crate) fn read(alloc: Global, reader: &str, text: &str) -> Result<Schedule, Error> {
    match reader {
        "try_from_str" => Schedule::try_from_str(alloc, text),
        "try_from_string" => Schedule::try_from_string(alloc, String::from_str(alloc, text)?),
        "try_from_cow, borrowed" => Schedule::try_from_cow(alloc, CowStr::Borrowed(text)),
        "try_from_cow, owned" => {
            let owned = String::from_str(alloc, text)?;
            Schedule::try_from_cow(alloc, CowStr::Owned(owned))
        }
        _ => Schedule::from_str(alloc, text),
    }
}

/// The text of a cell, where visible characters stand for white space and control characters.
pub(crate) fn text_of_row(alloc: Global, row: &str) -> Result<String, AllocError> {
    let mut text = String::new(alloc);
    for character in row.chars() {
        text.push(match character {
            '␀' => '\0',
            '␉' => '\t',
            '␊' => '\n',
            '␋' => '\x0b',
            '␌' => '\x0c',
            '␍' => '\r',
            '␠' => ' ',
            '␤' => '\u{85}',
            '⍽' => '\u{a0}',
            '⎵' => '\u{2003}',
            '〿' => '\u{3000}',
            '⌷' => '\u{feff}',
            other => other,
        })?;
    }
    Ok(text)
}

/// Appends a set as `0-4,7`, or as a star if it would be written as `whole`.
fn add_set<T: TimeUnitSpec>(text: &mut String, unit: &T, whole: &str) -> Result<(), AllocError> {
    let mut set = String::new(*text.allocator());
    let mut next = None;
    for ordinal in unit.iter() {
        let follows = next == Some(ordinal);
        let behind = ordinal.saturating_add(1);
        if !follows {
            let comma = if set.is_empty() { "" } else { "," };
            write!(set, "{comma}{ordinal}")?;
        } else if !unit.includes(behind) {
            write!(set, "-{ordinal}")?;
        }
        next = Some(behind);
    }
    text.push_str(if set.as_str() == whole {
        "*"
    } else {
        set.as_str()
    })
}

/// The seven sets, from the seconds to the years, or the message of a refusal.
fn outcome(alloc: Global, read: &Result<Schedule, Error>) -> Result<String, AllocError> {
    let schedule = match read {
        Ok(schedule) => schedule,
        Err(error) => return error.to_string(alloc),
    };
    let days = schedule.days_of_month();
    let mut text = String::new(alloc);
    add_set(&mut text, schedule.seconds(), "0-59")?;
    text.push(' ')?;
    add_set(&mut text, schedule.minutes(), "0-59")?;
    text.push(' ')?;
    add_set(&mut text, schedule.hours(), "0-23")?;
    text.push(' ')?;
    add_set(&mut text, days, "1-31")?;
    if days.last_day() {
        text.push_str(if days.count() > 0 { ",L" } else { "L" })?;
    }
    text.push(' ')?;
    add_set(&mut text, schedule.months(), "1-12")?;
    text.push(' ')?;
    add_set(&mut text, schedule.days_of_week(), "1-7")?;
    text.push(' ')?;
    add_set(&mut text, schedule.years(), "1970-2100")?;
    Ok(text)
}

/// Compares the outcome of each reader for `text` with `answer`, and what the outcome keeps: a
/// schedule keeps the text, and a refusal its message.
pub(crate) fn compare_readers(row: &Row<'_>, text: &str, answer: &str) -> Result<()> {
    for reader in READERS {
        let read = read(row.alloc(), reader, text);
        let told = outcome(row.alloc(), &read)?;
        row.compare(reader, answer, told.as_str())?;
        match &read {
            Ok(schedule) => row.compare("what is kept", text, schedule.source())?,
            Err(error) => match error.kind() {
                ErrorKind::Expression(kept) => {
                    row.compare("what is kept", answer, kept.as_str())?;
                }
                ErrorKind::OutOfMemory => row.compare(reader, "a refusal", "out of memory")?,
            },
        }
    }
    Ok(())
}

/// Compares the outcome of each reader for `text` with the outcome of `from_str`.
pub(crate) fn compare_same(row: &Row<'_>, text: &str) -> Result<()> {
    let answer = outcome(row.alloc(), &Schedule::from_str(row.alloc(), text))?;
    compare_readers(row, text, answer.as_str())
}

/// Compares the readers on every beginning of `text`, and on the whole text.
pub(crate) fn compare_beginnings(row: &Row<'_>, text: &str) -> Result<()> {
    for (length, _) in text.char_indices() {
        if let Some(beginning) = text.get(..length) {
            compare_same(row, beginning)?;
        }
    }
    compare_same(row, text)
}

pub(crate) fn ask(row: &mut Row<'_>) -> Result<()> {
    let text = text_of_row(row.alloc(), row.cell())?;
    compare_readers(row, text.as_str(), row.wanted())?;
    compare_beginnings(row, text.as_str())
}
