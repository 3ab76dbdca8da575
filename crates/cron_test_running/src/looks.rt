//! Rows of a crontab that changes while it is run, on a clock that wakes once a minute at least, as
//! the machine's does. A row has five parts:
//!
//! - which late fires are run: `each` or the `latest`;
//! - when the run begins and ends;
//! - what was noted of an earlier run, or `-`;
//! - the versions of the crontab, each with the time from when on it is there;
//! - what is written, and a `!` for each time that it is told that no entry fires any more.

ghost use Rattle.std.specs.Prelude.{◌≡◌};

use anyhow::{Context, Result, bail};
use cron_agenda_scheduler::Lateness;
use cron_notes::machine::MachineStore;
use cron_printing::printer::Printer;
use cron_scheduler::AlarmClock;
use cron_tab_agenda::Clock;
use cron_tab_lines::Crontab;
use cron_tab_running::{
    Changing, Crontabs, NamedOpen, Noted, RunClock, RunOrders, Tab, TabWriter, ZoneOpener, follow,
};
use cron_tab_tasks::{Form, Orders};
use cron_test_rows::{Ask, Row};
use cron_writer::watched::Watched;
use jiff::Timestamp;
use jiff::tz::TimeZone;
use std::alloc::{AllocError, Global};
use std::cell::Cell;

/// Midnight in UTC, at 2024-01-01T00:00:00Z, in seconds since 1970.
const MIDNIGHT: i64 = 1_704_067_200;

/// The error of a clock that would wait until after the end of its row. It ends the run.
#[derive(Clone, Copy, Debug)]
struct Over;

/// A clock that shows a second since 1970, and goes on by a minute at the most when it is waited
/// for.
#[derive(Drop)]
struct RowClock<'a> {
    second: &'a Cell<i64>,
    end: i64,
}

impl AlarmClock for RowClock<'_> {
    type Error = Over;

    fn now(&mut self) -> Result<Timestamp, Over> {
        Timestamp::from_second(self.second.get()).map_err(|_| Over)
    }

    fn sleep_until(&mut self, instant: Timestamp) -> Result<(), Over> {
        let now = self.second.get();
        let then = instant.as_second().min(now.saturating_add(60)).max(now);
        if then > self.end {
            return Err(Over);
        }
        self.second.set(then);
        Ok(())
    }
}

/// A crontab that changes: its versions, each with the second since 1970 when it begins.
#[derive(Drop)]
struct RowTab<'a> {
    alloc: Global,
    second: &'a Cell<i64>,
    versions: Vec<(i64, &'a str)>,
    /// The index of the version that was read last.
    read: usize,
}

impl RowTab<'_> {
    // The index of the version that the crontab has now.
    fn place(&self) -> usize {
        let now = self.second.get();
        let mut place = 0;
        for (number, version) in self.versions.iter().enumerate() {
            if version.0 <= now {
                place = number;
            }
        }
        place
    }
}

impl Changing for RowTab<'_> {
    fn have_changed(&mut self) -> bool {
        self.place() != self.read
    }
}

// The bytes of a crontab. In a row ` / ` separates lines, `~` after a line says that it lacks its
// line feed, and `-` is a crontab without lines.
fn bytes_of(alloc: Global, text: &str) -> Result<Vec<u8>, AllocError> {
    let mut bytes = Vec::new(alloc);
    if text == "-" {
        return Ok(bytes);
    }
    for line in text.split(" / ") {
        match line.strip_suffix('~') {
            Some(front) => bytes.extend_from_slice(front.as_bytes())?,
            None => {
                bytes.extend_from_slice(line.as_bytes())?;
                bytes.push(b'\n')?;
            }
        }
    }
    Ok(bytes)
}

impl Crontabs for RowTab<'_> {
    type Error = AllocError;

    fn read(&mut self) -> Result<Vec<Tab>, AllocError> {
        self.read = self.place();
        let mut tabs = Vec::new(self.alloc);
        if let Some((_, text)) = self.versions.get(self.read) {
            tabs.push(Tab {
                name: String::from_str(self.alloc, "tab")?,
                bytes: bytes_of(self.alloc, text)?,
            })?;
        }
        Ok(tabs)
    }
}

/// Opens no zones.
#[derive(Clone, Copy)]
struct NoZones;

impl ZoneOpener for NoZones {
    fn open<'x>(
        &'x self,
        alloc: Global,
        _kind: Crontab,
        _tabs: &'x [Tab],
    ) -> Result<Vec<NamedOpen<'x>>, AllocError> {
        Ok(Vec::new(alloc))
    }
}

// The instant of a time of day on 2024-01-01, as `HH:MM:SS`, in seconds since 1970.
fn second_of(text: &str) -> Result<i64> {
    let mut second: i64 = 0;
    for part in text.split(':') {
        second = second
            .saturating_mul(60)
            .saturating_add(part.parse::<i64>().ok().context("a time")?);
    }
    Ok(MIDNIGHT.saturating_add(second))
}

// The versions of a crontab, each with the second since 1970 when it begins.
fn versions_of<'a>(alloc: Global, text: &'a str) -> Result<Vec<(i64, &'a str)>> {
    let mut versions = Vec::new(alloc);
    for version in text.split(" ; ") {
        let (time, text) = version.split_once(' ').context("a version lacks a time")?;
        versions.push((second_of(time)?, text))?;
    }
    Ok(versions)
}

// The note of a row, a time and entries without a zone. `-` is an empty note.
fn noted_of(alloc: Global, text: &str) -> Result<Noted> {
    let mut noted = Noted::nothing(alloc);
    if text == "-" {
        return Ok(noted);
    }
    let (time, lines) = text.split_once(' ').context("a note lacks a time")?;
    noted.until = Timestamp::from_second(second_of(time)?)
        .ok()
        .context("an instant")?;
    for line in lines.split(" / ") {
        let mut entry = Vec::from_slice(alloc, b"\t".as_slice())?;
        entry.extend_from_slice(line.as_bytes())?;
        noted.entries.push(entry)?;
    }
    Ok(noted)
}

fn lateness_of(text: &str) -> Result<Lateness> {
    match text {
        "each" => Ok(Lateness::Each),
        "latest" => Ok(Lateness::Latest),
        _ => bail!("no lateness"),
    }
}

fn orders_of(lateness: Lateness) -> RunOrders<'static>
    ensures { result.most ≡ 18_446_744_073_709_551_615 }
{
    RunOrders {
        tasks: Orders {
            kind: Crontab::User,
            form: Form::Command,
            user: None,
            names: &[],
        },
        clock: Clock::Own,
        lateness,
        reboot: false,
        most: u64::MAX,
        ends: false,
    }
}

// The lines that were written, with spaces between them, or `nothing`. A `!` follows for each time
// that it was told that no entry fires any more.
fn words_of(alloc: Global, written: &[u8], told: &[u8]) -> Result<String> {
    let mut words = String::new(alloc);
    for line in str::from_utf8(written)?.lines() {
        if !words.is_empty() {
            words.push_str(" ")?;
        }
        words.push_str(line)?;
    }
    if words.is_empty() {
        words.push_str("nothing")?;
    }
    for line in str::from_utf8(told)?.lines() {
        if line.ends_with(": waiting for a change") {
            words.push_str(" !")?;
        }
    }
    Ok(words)
}

/// The cells of a row before its answer.
#[derive(Clone, Copy)]
struct Parts<'a> {
    lateness: &'a str,
    times: &'a str,
    noted: &'a str,
    versions: &'a str,
}

// Runs a crontab and follows its changes, after what is noted. Returns what is written.
fn write_followed(
    alloc: Global,
    clock: RowClock<'_>,
    files: RowTab<'_>,
    lateness: Lateness,
    noted: Noted,
) -> Result<String> {
    let mut clock = RunClock {
        alloc,
        clock,
        files,
        notebook: None::<cron_tab_running::Notebook<'_, MachineStore<'_, HostRuntime>>>,
        noted: Noted::nothing(alloc),
        until: None,
        seen: Timestamp::MIN,
    };
    let mut writer = TabWriter::new(alloc, Watched::new(Vec::new(alloc)));
    let mut complaints = Printer {
        out: Watched::new(Vec::new(alloc)),
    };
    let _ended = follow(
        alloc,
        &orders_of(lateness),
        TimeZone::UTC,
        &NoZones,
        noted,
        &mut clock,
        &mut writer,
        &mut complaints,
    );
    let TabWriter { printer, .. } = writer;
    let written = printer.out.into_inner();
    words_of(
        alloc,
        written.as_slice(),
        complaints.out.into_inner().as_slice(),
    )
}

// Runs the crontab of a row, and returns what is written.
fn told(alloc: Global, parts: &Parts<'_>) -> Result<String> {
    let (begin, end) = parts.times.split_once(' ').context("an end is missing")?;
    let begin = second_of(begin)?;
    let end = second_of(end)?;
    let versions = versions_of(alloc, parts.versions)?;
    let lateness = lateness_of(parts.lateness)?;
    let noted = noted_of(alloc, parts.noted)?;
    let second = Cell::new(begin);
    let clock = RowClock {
        second: &second,
        end,
    };
    let files = RowTab {
        alloc,
        second: &second,
        versions,
        read: 0,
    };
    write_followed(alloc, clock, files, lateness, noted)
}

/// The kind of rows that have crontabs that change.
#[derive(Clone, Copy)]
pub(crate) struct Looks;

impl Ask for Looks {
    fn ask(&self, row: &mut Row<'_>) -> Result<()> {
        let parts = Parts {
            lateness: row.cell(),
            times: row.cell(),
            noted: row.cell(),
            versions: row.cell(),
        };
        let told = told(row.alloc(), &parts)?;
        row.compare("what is written", row.wanted(), told.as_str())
    }
}
