//! The subcommand `check`: which lines of files are refused, and which are probably mistakes.

use crate::spans::{read_instant, say_missing};
use clap::ArgMatches;
use cron_checking::check::{Outcome, check as check_expressions};
use cron_checking::line::{Mode, Telling};
use cron_replies::status::Status;
use cron_tab_answers::check::{Wanted, check};
use cron_tab_context::{Asked, Found, list_found};
use cron_tab_lines::{Crontab, NamedZone};
use cron_writer::watched::Watched;
use crontool_machine::choices::kind_of;
use crontool_machine::machine::{
    Surroundings, controls_of, no_memory, open_zone, read_file, say_unread,
};
use crontool_machine::zones::TabZones;
use jiff::Timestamp;
use jiff::tz::TimeZone;
use std::alloc::{AllocError, Global};
use std::fs;
use std::io::{self, BufRead, BufReader, Read};

/// The name of one of `count` files in messages. `None` if it is the only one.
pub(crate) fn told_name(file: &str, count: usize) -> Option<&str> {
    if count > 1 { Some(file) } else { None }
}

/// The text in front of each line's number: the file's name and a colon, or nothing without a name.
pub(crate) fn front_of(alloc: Global, name: Option<&str>) -> Result<String, AllocError> {
    match name {
        Some(name) => format!(in alloc; "{name}:"),
        None => Ok(String::new(alloc)),
    }
}

/// Which warnings of a crontab are written.
#[derive(Drop)]
enum Warnings<'a> {
    None,
    /// Those of lines alone, as the zone can't be opened.
    OfLines,
    /// Those of lines, and those by what is around entries, which look at a year.
    All(Timestamp, TimeZone<'a>),
}

/// A crontab that is checked.
#[derive(Clone, Copy)]
struct Tab<'a> {
    kind: Crontab,
    /// The text in front of each line's number.
    front: &'a str,
    path: &'a str,
    bytes: &'a [u8],
}

// The warnings of a crontab by what is around its entries, if these are written.
fn found_in<'x>(
    alloc: Global,
    tab: &Tab<'x>,
    warnings: &Warnings<'x>,
    zones: &'x TabZones<'_>,
    names: &'x [NamedZone<'x>],
) -> Result<Vec<Found>, AllocError> {
    let Warnings::All(start, zone) = warnings else {
        return Ok(Vec::new(alloc));
    };
    let asked = Asked {
        kind: tab.kind,
        path: tab.path,
        names,
        start: *start,
    };
    let zones = zones.behind(alloc, *zone)?;
    list_found(alloc, &asked, zones.as_slice(), tab.bytes)
}

// Checks the lines of a crontab, after opening the zones that it names. `Err` has the status if the
// crontab can't be checked.
fn check_tab(rt: &HostRuntime, tab: &Tab<'_>, warnings: &Warnings<'_>) -> Result<Status, Status> {
    let around = Surroundings::of(rt)?;
    let mut zones = TabZones::new(rt.alloc());
    zones.open(rt, tab.kind, tab.bytes, &around)?;
    let Ok(names) = zones.names(rt.alloc()) else {
        return Err(no_memory(rt));
    };
    let names = names.as_slice();
    let Ok(found) = found_in(rt.alloc(), tab, warnings, &zones, names) else {
        return Err(no_memory(rt));
    };
    let wanted = Wanted {
        kind: tab.kind,
        front: tab.front,
        warn: !matches!(warnings, Warnings::None),
        found: found.as_slice(),
        needs_feed: true,
        controls: controls_of(&rt.stdout()),
        names,
    };
    let mut out = Watched::new(io::writer(rt));
    match check(rt.alloc(), &wanted, tab.bytes, &mut out) {
        Status::Unreadable => Err(no_memory(rt)),
        status => Ok(status),
    }
}

// Reads a crontab, and checks its lines. `Err` has the status if it can't be read or checked.
fn check_tab_file(
    rt: &HostRuntime,
    kind: Crontab,
    warnings: &Warnings<'_>,
    front: &str,
    path: &str,
) -> Result<Status, Status> {
    let bytes = match read_file(rt, path) {
        Ok(bytes) => bytes,
        Err(error) => return Err(say_unread(rt, path, &error)),
    };
    let tab = Tab {
        kind,
        front,
        path,
        bytes: bytes.as_slice(),
    };
    check_tab(rt, &tab, warnings)
}

fn status_of(end: Outcome) -> Status {
    match end {
        Outcome::AllRead => Status::Done,
        Outcome::SomeRefused => Status::No,
        Outcome::WriteFailed => Status::WriteFailed,
        Outcome::OutOfMemory | Outcome::Unreadable | Outcome::NotUtf8 => Status::Unreadable,
    }
}

// Checks the lines of a reader. Each line is an expression.
fn check_lines<R: Read + Drop>(
    rt: &HostRuntime,
    how: &Telling<'_>,
    file: &str,
    reader: R,
) -> Status {
    let mut reader = match BufReader::new(rt.alloc(), reader) {
        Ok(reader) => reader,
        Err(error) => return say_unread(rt, file, &error),
    };
    // a folder can be opened but not read, which shows only here
    if let Err(error) = reader.fill_buf() {
        return say_unread(rt, file, &error);
    }
    let mut out = Watched::new(io::writer(rt));
    status_of(check_expressions(rt.alloc(), how, &mut reader, &mut out))
}

// Checks a file of expressions.
fn check_file(rt: &HostRuntime, how: &Telling<'_>, file: &str) -> Status {
    if file == "-" {
        return check_lines(rt, how, file, rt.reader());
    }
    match fs::open(rt, file) {
        Ok(opened) => check_lines(rt, how, file, opened),
        Err(error) => say_unread(rt, file, &error),
    }
}

/// What is checked of each file.
#[derive(Drop)]
enum Kind<'a> {
    /// A crontab, of a user or of the system.
    Tab(Crontab, Warnings<'a>),
    /// The faults of lines that are no expression.
    Faults,
    /// The faults of lines that are no expression, and the sets of the others.
    Sets,
    /// The faults of lines that are no expression, and the first fires of the others after an
    /// instant in a zone.
    Next(Timestamp, TimeZone<'a>),
}

// Checks one of `count` files.
fn check_one(rt: &HostRuntime, kind: &Kind<'_>, file: &str, count: usize) -> Status {
    let Ok(front) = front_of(rt.alloc(), told_name(file, count)) else {
        return no_memory(rt);
    };
    let front = front.as_str();
    let mode = match kind {
        Kind::Tab(kind, warnings) => {
            return match check_tab_file(rt, *kind, warnings, front, file) {
                Ok(status) | Err(status) => status,
            };
        }
        Kind::Faults => Mode::Faults,
        Kind::Sets => Mode::Short,
        Kind::Next(start, zone) => Mode::Next(*start, *zone),
    };
    check_file(rt, &Telling { front, mode }, file)
}

// Checks one file after another until a write fails. A file that can't be read doesn't end it.
fn check_all(rt: &HostRuntime, kind: &Kind<'_>, files: &[&str]) -> Status {
    let mut worst = Status::Done;
    for file in files {
        let status = check_one(rt, kind, *file, files.len());
        if status == Status::WriteFailed {
            return status;
        }
        worst = worst.worse(status);
    }
    worst
}

// What is checked without a zone: crontabs without warnings, or expressions without their first
// fires. `None` if a zone is needed.
fn plain_kind<'a>(words: &ArgMatches<'_>) -> Option<Kind<'a>> {
    if words.get_flag("sets") {
        return Some(Kind::Sets);
    }
    if words.get_flag("expressions") {
        return match words.get_str("next") {
            Some(_) => None,
            None => Some(Kind::Faults),
        };
    }
    if words.get_flag("no-warn") {
        return Some(Kind::Tab(kind_of(words), Warnings::None));
    }
    None
}

// Checks crontabs. Warnings look at a year in `zone`. If that can't be opened, the reason is
// written, and lines are checked all the same. The greater status counts.
fn check_tabs(
    rt: &HostRuntime,
    words: &ArgMatches<'_>,
    zone: &str,
    around: &Surroundings,
    files: &[&str],
) -> Result<Status, Status> {
    let kind = kind_of(words);
    let opened = match open_zone(rt, zone, around) {
        Ok(opened) => opened,
        Err(status) => {
            let kind = Kind::Tab(kind, Warnings::OfLines);
            return Ok(status.worse(check_all(rt, &kind, files)));
        }
    };
    let zone = opened.time_zone();
    let start = words.get_str("after").unwrap_or("now");
    let start = read_instant(rt, start, &zone, around.now)?;
    let kind = Kind::Tab(kind, Warnings::All(start, zone));
    Ok(check_all(rt, &kind, files))
}

// Checks files. If START is given by `--next`, they have expressions, and the first fire of each
// after it, in `zone`, is written.
fn check_files(
    rt: &HostRuntime,
    words: &ArgMatches<'_>,
    zone: &str,
    files: &[&str],
) -> Result<Status, Status> {
    if let Some(kind) = plain_kind(words) {
        return Ok(check_all(rt, &kind, files));
    }
    let around = Surroundings::of(rt)?;
    let Some(start) = words.get_str("next") else {
        return check_tabs(rt, words, zone, &around, files);
    };
    let opened = open_zone(rt, zone, &around)?;
    let zone = opened.time_zone();
    let start = read_instant(rt, start, &zone, around.now)?;
    Ok(check_all(rt, &Kind::Next(start, zone), files))
}

/// Carries out the subcommand `check`, and returns its status.
pub fn answer(rt: &HostRuntime, words: &ArgMatches<'_>) -> Status {
    let (Some(files), Some(zone)) = (words.get_strs("FILE"), words.get_str("zone")) else {
        return say_missing(rt);
    };
    match check_files(rt, words, zone, files) {
        Ok(status) | Err(status) => status,
    }
}
