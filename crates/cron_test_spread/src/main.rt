//! Replays the rows of `data/`: texts of crontabs with items whose number a name decides, and the texts
//! with those numbers, as Python's `hashlib` counts them. It prints each answer that differs from its
//! row, and the number of rows of each file.
#![tactic(auto)]

use anyhow::Result;
use cron_spread::{Spread, spread_items};
use cron_test_rows::{Ask, Row, ask_files};
use std::alloc::{AllocError, Global};

/// What the rows of a file hold: a name, a text, and the text with its numbers.
#[derive(Clone, Copy)]
struct Spreads;

const FILES: [(Spreads, &str); 1] = [(Spreads, "spreads.tsv")];

// The text that a cell means: signs stand for tabs, line feeds and carriage returns.
fn meant(alloc: Global, cell: &str) -> Result<String, AllocError> {
    let text = cell.replace(alloc, '␉', "\t")?;
    let text = text.as_str().replace(alloc, '␊', "\n")?;
    text.as_str().replace(alloc, '␍', "\r")
}

// The cell that means a text.
fn shown(alloc: Global, text: &str) -> Result<String, AllocError> {
    let cell = text.replace(alloc, '\t', "␉")?;
    let cell = cell.as_str().replace(alloc, '\n', "␊")?;
    cell.as_str().replace(alloc, '\r', "␍")
}

impl Ask for Spreads {
    fn ask(&self, row: &mut Row<'_>) -> Result<()> {
        let alloc = row.alloc();
        let by = Spread {
            name: row.cell().as_bytes(),
        };
        let text = meant(alloc, row.cell())?;
        let made = spread_items(alloc, text.as_bytes(), &by)?;
        let made = String::from_utf8_lossy(alloc, made.as_slice())?;
        row.add("", &shown(alloc, made.as_str())?)?;
        row.check("its numbers")
    }
}

fn main(rt: HostRuntime) -> Result<()> {
    ask_files(&rt, &FILES)
}
