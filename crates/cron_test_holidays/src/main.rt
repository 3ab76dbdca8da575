//! Replays the rows of `data/`: files of holidays, with the dates that Python's `datetime` and its
//! package `icalendar` read, or the line that is refused. It prints each answer that differs from its
//! row, and the number of rows of each file.
#![tactic(auto)]

use anyhow::Result;
use cron_holidays::read_holidays;
use cron_test_rows::{Ask, Row, ask_files};
use std::alloc::{AllocError, Global};

/// What the rows of a file hold: a text, and its holidays or the line that is refused.
#[derive(Clone, Copy)]
struct Holidays;

const FILES: [(Holidays, &str); 2] = [(Holidays, "lists.tsv"), (Holidays, "calendars.tsv")];

// The text of a row, where signs stand for line feeds, carriage returns and tabs.
fn text_of(alloc: Global, cell: &str) -> Result<String, AllocError> {
    let text = cell.replace(alloc, '␊', "\n")?;
    let text = text.as_str().replace(alloc, '␍', "\r")?;
    text.as_str().replace(alloc, '␉', "\t")
}

impl Ask for Holidays {
    fn ask(&self, row: &mut Row<'_>) -> Result<()> {
        let text = text_of(row.alloc(), row.cell())?;
        match read_holidays(row.alloc(), text.as_bytes()) {
            Ok(dates) => {
                for date in &dates {
                    row.add(" ", date)?;
                }
            }
            Err(fault) => row.add("", &fault)?,
        }
        row.check("its holidays")
    }
}

fn main(rt: HostRuntime) -> Result<()> {
    ask_files(&rt, &FILES)
}
