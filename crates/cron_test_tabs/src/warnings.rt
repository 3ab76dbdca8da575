//! Lines that begin with an expression, with whether they follow the clock or have a fixed time,
//! and with their warnings; and files with the warnings of their lines, by number. A small program
//! in another language made the warnings of lines from the raw text, and counted the calendar day
//! by day.

use crate::files::{kind_of, without_marks};
use anyhow::{Context, Result, bail};
use cron_crontab::{next_word, read};
use cron_tab_lines::{Crontab, Line, Lines};
use cron_tab_warnings::{LINE_WARNINGS, WARNINGS, follows_clock, text_of, warns, warns_line};
use cron_test_rows::Row;

// The nickname, or the five words, at the beginning of a line.
fn front_of(line: &str) -> Result<&str> {
    let count = if line.starts_with('@') { 1 } else { 5 };
    let mut rest = line;
    for _word in 0..count {
        if let Some((_, more)) = next_word(rest) {
            rest = more;
        }
    }
    line.strip_suffix(rest).context("no front")
}

/// Compares the warnings in the row's answer, or `-` if there are none.
pub(crate) fn check(row: &mut Row<'_>) -> Result<()> {
    if row.answer().is_empty() {
        row.add("", &"-")?;
    }
    row.check("warnings")
}

/// Compares the clock rule and the warnings of a line.
pub(crate) fn ask(row: &mut Row<'_>) -> Result<()> {
    let (line, wanted) = (row.cell(), row.cell());
    let clock = if follows_clock(line) {
        "follows"
    } else {
        "fixed"
    };
    row.compare("its clock", wanted, clock)?;
    let read = read(front_of(line)?);
    let Ok(expression) = &read else {
        bail!("no expression");
    };
    for warning in WARNINGS {
        if warns(Crontab::User, warning, line, expression) {
            row.add("; ", &warning)?;
        }
    }
    check(row)
}

/// Compares the warnings of a file's lines.
pub(crate) fn ask_lines(row: &mut Row<'_>) -> Result<()> {
    let kind = kind_of(row.cell());
    let file = without_marks(row.alloc(), row.cell())?;
    for line in Lines::of(kind, file.as_bytes()) {
        for warning in LINE_WARNINGS {
            if warns_line(warning, &line) {
                row.add("; ", &line.number)?;
                row.add(" ", &warning)?;
            }
        }
        let Ok(Line::Entry(entry)) = &line.read else {
            continue;
        };
        for warning in WARNINGS {
            if warns(kind, warning, text_of(line.bytes), &entry.expression) {
                row.add("; ", &line.number)?;
                row.add(" ", &warning)?;
            }
        }
    }
    check(row)
}
