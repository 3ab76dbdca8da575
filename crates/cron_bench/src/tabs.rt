//! The costs of crontabs: expressions of five fields beside expressions of six, a file of 100,000
//! lines, the next fires of many entries, and the start of a run of them.

use crate::lines::{LINES, varied_lines};
use crate::rounds::least_cost;
use crate::starts::time_start;
use crate::walks::CHICAGO;
use anyhow::{Context, Result, ensure};
use cron_agenda::Agenda;
use cron_crontab::{Expression, read};
use cron_tab_agenda::{Clock, TabEntry, add_lines, list_fires};
use cron_tab_lines::{Crontab, FileLine, Line, Lines};
use cron_tab_warnings::{LINE_WARNINGS, WARNINGS, text_of, warns, warns_line};
use cron_text::{no_ordinals, read_into};
use jiff::Timestamp;
use jiff::tz::TimeZone;
use std::alloc::{AllocError, Global};

/// The number of entries that fire. The next constant is the number of their fires that are listed.
const ENTRIES: u32 = 10_000;

const FIRES: usize = 1_000;

/// The five fields of a line, which follow its seconds.
fn five_fields(line: &str) -> &str {
    match line.split_once(' ') {
        Some((_, fields)) => fields,
        None => line,
    }
}

/// Reads each line's six fields, and returns the number of lines that are read.
fn read_sixes(lines: &[String]) -> u32 {
    let mut read: u32 = 0;
    let mut fields = no_ordinals();
    for line in lines {
        if read_into(line.as_str(), &mut fields) {
            read = read.wrapping_add(1);
        }
    }
    read
}

/// Reads each line's five fields as a crontab's, and returns the number of lines that are read.
fn read_fives(lines: &[String]) -> u32 {
    let mut count: u32 = 0;
    for line in lines {
        if read(five_fields(line.as_str())).is_ok() {
            count = count.wrapping_add(1);
        }
    }
    count
}

/// A crontab with an entry for each of the first `count` lines.
fn crontab_of(alloc: Global, lines: &[String], count: u32) -> Result<Vec<u8>, AllocError> {
    let mut file = Vec::new(alloc);
    for line in lines.iter().take(count as usize) {
        file.extend_from_slice(five_fields(line.as_str()).as_bytes())?;
        file.extend_from_slice(b" /usr/local/bin/backup --quiet\n".as_slice())?;
    }
    Ok(file)
}

/// Counts the lines of a file that are entries.
fn count_entries(file: &[u8]) -> u32 {
    let mut count: u32 = 0;
    for line in Lines::of(Crontab::User, file) {
        if matches!(line.read, Ok(Line::Entry(_))) {
            count = count.wrapping_add(1);
        }
    }
    count
}

/// Counts the warnings of an expression.
fn count_of_text(text: &str, expression: &Expression) -> u32 {
    let mut count: u32 = 0;
    for warning in WARNINGS {
        if warns(Crontab::User, warning, text, expression) {
            count = count.wrapping_add(1);
        }
    }
    count
}

/// Counts the warnings of a line.
fn count_of_line(line: &FileLine<'_>) -> u32 {
    let mut count: u32 = match &line.read {
        Ok(Line::Entry(entry)) => count_of_text(text_of(line.bytes), &entry.expression),
        _ => 0,
    };
    for warning in LINE_WARNINGS {
        if warns_line(warning, line) {
            count = count.wrapping_add(1);
        }
    }
    count
}

/// Counts the warnings of a file.
fn count_warnings(file: &[u8]) -> u32 {
    let mut count: u32 = 0;
    for line in Lines::of(Crontab::User, file) {
        count = count.wrapping_add(count_of_line(&line));
    }
    count
}

/// Lists the next fires of a file's entries, and counts them.
fn count_fires(
    alloc: Global,
    file: &[u8],
    start: Timestamp,
    zones: &[TimeZone<'_>],
) -> Option<usize> {
    let mut agenda: Agenda<TabEntry> = Agenda::new(alloc);
    add_lines(
        &mut agenda,
        Lines::of(Crontab::User, file),
        &[],
        Clock::Own,
        start,
        zones,
        0,
    )
    .ok()?;
    let mut fires = Vec::new(alloc);
    list_fires(&mut fires, &mut agenda, Timestamp::MAX, FIRES, zones).ok()?;
    Some(fires.len())
}

/// Prints the cost of reading an expression of six fields, and of five.
fn time_reads(rt: &HostRuntime, lines: &[String]) -> Result<()> {
    let mut is_whole = true;
    let six = least_cost(rt, 15, LINES, || is_whole &= read_sixes(lines) == LINES)?;
    println!(rt; "tabs | six fields | {six}")?;
    let five = least_cost(rt, 15, LINES, || is_whole &= read_fives(lines) == LINES)?;
    println!(rt; "tabs | five fields | {five}")?;
    ensure!(is_whole, "tabs: a line is refused");
    Ok(())
}

/// Prints the cost of reading a line of a file, and of reading it with its warnings.
fn time_lines(rt: &HostRuntime, file: &[u8]) -> Result<()> {
    let mut is_whole = true;
    let read = least_cost(rt, 15, LINES, || is_whole &= count_entries(file) == LINES)?;
    println!(rt; "tabs | a line | {read}")?;
    let warned = least_cost(rt, 5, LINES, || count_warnings(file))?;
    println!(rt; "tabs | a line's warnings | {warned}")?;
    ensure!(is_whole, "tabs: a line is no entry");
    Ok(())
}

/// Prints the cost of reading a file and listing the next fires of its entries.
fn time_fires(rt: &HostRuntime, file: &[u8]) -> Result<()> {
    let zones = [TimeZone::posix(CHICAGO)?];
    let start = Timestamp::from_second(1_514_764_800).context("no instant")?;
    let mut is_whole = true;
    let cost = least_cost(
        rt,
        5,
        1,
        || is_whole &= count_fires(rt.alloc(), file, start, &zones) == Some(FIRES),
    )?;
    println!(rt; "tabs | {FIRES} fires of {ENTRIES} entries | {cost}")?;
    ensure!(is_whole, "tabs: there are fewer fires");
    Ok(())
}

/// Prints the costs of crontabs.
pub fn run(rt: &HostRuntime) -> Result<()> {
    let lines = varied_lines(rt.alloc())?;
    time_reads(rt, lines.as_slice())?;
    let file = crontab_of(rt.alloc(), lines.as_slice(), LINES)?;
    time_lines(rt, file.as_slice())?;
    let entries = crontab_of(rt.alloc(), lines.as_slice(), ENTRIES)?;
    time_fires(rt, entries.as_slice())?;
    time_start(rt, entries.as_slice(), ENTRIES)
}
