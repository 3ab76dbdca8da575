//! The costs of checking lines that are expressions.

use crate::lines::{LINES, varied_lines};
use crate::rounds::least_cost;
use anyhow::{Result, ensure};
use cron_checking::check::{Outcome, check};
use cron_checking::line::{Mode, Telling};
use cron_writer::watched::Watched;
use std::alloc::{AllocError, Global};
use std::io::Cursor;

/// The files of short lines: what a row calls each, and how many lines it has.
const SHORT_LINES: [(&str, u32); 3] = [
    ("10,000 short checked", 10_000),
    ("100,000 short checked", 100_000),
    ("1,000,000 short checked", 1_000_000),
];

/// A file that has the short line `@daily` `count` times.
fn short_file(alloc: Global, count: u32) -> Result<String, AllocError> {
    let mut file = String::new(alloc);
    for _ in 0..count {
        file.push_str("@daily\n")?;
    }
    Ok(file)
}

/// A file of the varied lines.
fn varied_file(alloc: Global) -> Result<String, AllocError> {
    let mut file = String::new(alloc);
    for line in varied_lines(alloc)?.as_slice() {
        file.push_str(line.as_str())?;
        file.push_str("\n")?;
    }
    Ok(file)
}

/// Returns true if a check of the file accepts each line.
fn are_read(alloc: Global, how: &Telling<'_>, file: &str) -> bool {
    let mut room = [0_u8; 64];
    let mut out = Watched::new(Cursor::new(room.as_mut_slice()));
    let mut reader = file.as_bytes();
    check(alloc, how, &mut reader, &mut out) == Outcome::AllRead
}

/// Prints the least cost of a checked line in 15 rounds over a file of `lines` lines. It fails if a
/// line is refused.
fn time_check(
    rt: &HostRuntime,
    name: &str,
    how: &Telling<'_>,
    file: &str,
    lines: u32,
) -> Result<()> {
    let mut all_read = true;
    let cost = least_cost(
        rt,
        15,
        lines,
        || all_read &= are_read(rt.alloc(), how, file),
    )?;
    ensure!(all_read, "{name}: a line is refused");
    println!(rt; "lines | {name} | {cost}")?;
    Ok(())
}

/// Prints what it costs to check a line as `crontool check --expressions` does: for varied lines,
/// and for files of more and more short lines.
pub fn run(rt: &HostRuntime) -> Result<()> {
    let how = Telling {
        front: "",
        mode: Mode::Faults,
    };
    let varied = varied_file(rt.alloc())?;
    time_check(rt, "checked", &how, varied.as_str(), LINES)?;
    for (name, count) in SHORT_LINES {
        let short = short_file(rt.alloc(), count)?;
        time_check(rt, name, &how, short.as_str(), count)?;
    }
    Ok(())
}
