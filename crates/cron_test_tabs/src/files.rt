//! Files, and what each of their lines is, by number. Marks stand for characters that a row can't
//! hold.

use anyhow::{Result, ensure};
use cron_crontab::Expression;
use cron_tab_lines::{Crontab, Entry, FileLine, Line, Lines, Unescaped};
use cron_test_rows::Row;
use std::alloc::{AllocError, Global};

// The marks, each with the text that it stands for.
const MARKS: [(&str, &str); 6] = [
    (
        "<L100>",
        "<L><L><L><L><L><L><L><L><L><L><L><L><L><L><L><L><L><L><L><L><L><L><L><L><L><L><L><L><L><L><L><L><L><L><L><L><L><L><L><L><L><L><L><L><L><L><L><L><L><L><L><L><L><L><L><L><L><L><L><L><L><L><L><L><L><L><L><L><L><L><L><L><L><L><L><L><L><L><L><L><L><L><L><L><L><L><L><L><L><L><L><L><L><L><L><L><L><L><L><L>",
    ),
    ("<T>", "\t"),
    ("<R>", "\r"),
    ("<L>", "\n"),
    ("<0>", "\0"),
    ("<BOM>", "\u{FEFF}"),
];

/// A text of a row, with its marks replaced by what they stand for.
pub(crate) fn without_marks(alloc: Global, text: &str) -> Result<String, AllocError> {
    let mut plain = String::from_str(alloc, text)?;
    for (mark, meant) in MARKS {
        plain = plain.as_str().replace(alloc, mark, meant)?;
    }
    Ok(plain)
}

/// The kind of crontab that a row names.
pub(crate) fn kind_of(kind: &str) -> Crontab {
    if kind == "system" {
        Crontab::System
    } else {
        Crontab::User
    }
}

// Adds `front` and then `bytes` to the row's answer.
fn add(row: &mut Row<'_>, front: &str, bytes: &[u8]) -> Result<(), AllocError> {
    let text = String::from_utf8_lossy(row.alloc(), bytes)?;
    row.add(front, &text)
}

// Adds to the row's answer `front`, then a command or its input without escapes, and a closing
// bracket.
fn add_unescaped(row: &mut Row<'_>, front: &str, text: &[u8]) -> Result<(), AllocError> {
    let bytes: Vec<u8> = Unescaped::of(text).collect(row.alloc())?;
    add(row, front, bytes.as_slice())?;
    row.add("]", &"")
}

fn add_entry(row: &mut Row<'_>, entry: &Entry<'_>) -> Result<(), AllocError> {
    let schedules = match &entry.expression {
        Expression::Reboot => "reboot",
        Expression::Fires(schedules) if schedules.as_slice().len() == 1 => "one",
        Expression::Fires(_) => "two",
    };
    row.add(" entry ", &schedules)?;
    if let Some(user) = entry.user {
        add(row, " for [", user)?;
        row.add("]", &"")?;
    }
    add_unescaped(row, " [", entry.command)?;
    match entry.input {
        Some(input) => add_unescaped(row, " input [", input),
        None => Ok(()),
    }
}

fn add_line(row: &mut Row<'_>, line: &FileLine<'_>) -> Result<(), AllocError> {
    row.add("; ", &line.number)?;
    match &line.read {
        Err(refusal) => row.add(" refused ", refusal),
        Ok(Line::Blank) => row.add(" ", &"blank"),
        Ok(Line::Comment) => row.add(" ", &"comment"),
        Ok(Line::Setting(setting)) => {
            add(row, " setting [", setting.name)?;
            add(row, "] [", setting.value)?;
            row.add("]", &"")
        }
        Ok(Line::Zone(value)) => {
            add(row, " zone [", value)?;
            row.add("]", &"")
        }
        Ok(Line::Entry(entry)) => add_entry(row, entry),
    }
}

/// Compares the lines of a file. The bytes of its lines must be the file.
pub(crate) fn ask(row: &mut Row<'_>) -> Result<()> {
    let kind = kind_of(row.cell());
    let file = without_marks(row.alloc(), row.cell())?;
    let wanted = without_marks(row.alloc(), row.wanted())?;
    let mut written = Vec::new(row.alloc());
    for line in Lines::of(kind, file.as_bytes()) {
        add_line(row, &line)?;
        written.extend_from_slice(line.bytes)?;
    }
    ensure!(
        written.as_slice() == file.as_bytes(),
        "the lines are not the file"
    );
    row.compare("lines", wanted.as_str(), row.answer())
}
