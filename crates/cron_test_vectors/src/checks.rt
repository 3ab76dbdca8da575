//! Checks of files whose lines are expressions: what is printed for each line, with readers and
//! writers that may fail.

ghost use Rattle.std.specs.Prelude.{◌≡◌, false};
ghost use Rattle.cron_writer.specs.Watching.{has_failed};

use crate::answers::add_bytes;
use crate::words::{bytes_of, first_word};
use crate::writers::{Limited, kind_named};
use anyhow::{Result, bail};
use cron_checking::check::{Outcome, check};
use cron_checking::line::{Mode, Telling, tell_first};
use cron_fires::Union;
use cron_test_rows::{Row, sets_of};
use cron_writer::watched::Watched;
use jiff::tz::TimeZone;
use std::alloc::Global;
use std::io::{self, BufReader, ErrorKind, Read};

/// Checks a file, with `front` before each printed line. `words` name what is printed for an
/// accepted line: `faults` (nothing), `sets`, or `next` and a start.
fn check_bytes(
    alloc: Global,
    words: &str,
    front: &str,
    file: &[u8],
    out: &mut Watched<Limited>,
) -> Result<Outcome>
    requires { has_failed out.old ≡ false }
{
    let mode = match first_word(words) {
        ("faults", _) => Mode::Faults,
        ("sets", _) => Mode::Short,
        ("next", start) => Mode::Next(start.parse()?, TimeZone::UTC),
        _ => bail!("{words:?} is no mode"),
    };
    let mut reader = file;
    Ok(check(alloc, &Telling { mode, front }, &mut reader, out))
}

/// Adds how a check ends, and what it wrote.
fn add_end(row: &mut Row<'_>, end: Outcome, out: Watched<Limited>) -> Result<()> {
    let end = format!(in row.alloc(); "{end:?}")?;
    row.add("", &end)?;
    out.into_inner().add_to(row)
}

/// Replays a row, which has what is printed, the text before each printed line, the file and the
/// writer.
pub(crate) fn ask(row: &mut Row<'_>) -> Result<()> {
    let (mode, front) = (row.cell(), row.cell());
    let file = bytes_of(row.alloc(), row.cell())?;
    let mut out = Watched::new(Limited::of(row)?);
    let end = check_bytes(row.alloc(), mode, front, file.as_slice(), &mut out)?;
    add_end(row, end, out)
}

/// A reader that gives the bytes of `front`, one in each call. Then it fails if `fails` is an
/// error. Otherwise it gives no byte once, and then `behind`, like a terminal where more is typed
/// after the end of input.
#[derive(Drop)]
struct Typed<'a> {
    front: &'a [u8],
    fails: Option<ErrorKind>,
    has_ended: bool,
    behind: &'a [u8],
}

impl Read for Typed<'_> {
    fn read(&mut self, buf: &mut [u8]) -> io::Result<usize> {
        if !self.front.is_empty() {
            let room = buf.len().min(1);
            return self.front.read(&mut buf[..room]);
        }
        if let Some(kind) = self.fails {
            return Err(io::Error::from(kind));
        }
        if !self.has_ended {
            self.has_ended = true;
            return Ok(0);
        }
        self.behind.read(buf)
    }
}

/// Checks for faults, and adds how the check ends, what it wrote, and the bytes that the reader has
/// left.
fn check_typed(row: &mut Row<'_>, typed: Typed<'_>) -> Result<()> {
    let how = Telling {
        front: "",
        mode: Mode::Faults,
    };
    let mut reader = BufReader::new(row.alloc(), typed)?;
    let mut out = Watched::new(Limited::new(row.alloc()));
    let end = check(row.alloc(), &how, &mut reader, &mut out);
    add_end(row, end, out)?;
    let mut rest = Vec::new(row.alloc());
    let is_read = reader.read_to_end(&mut rest).is_ok();
    row.add(", left ", &is_read)?;
    Ok(add_bytes(row, " ", rest.as_slice())?)
}

/// Replays a row, which has the bytes that a reader gives, how it fails then or `ends`, and the
/// bytes after the end.
pub(crate) fn ask_by_reader(row: &mut Row<'_>) -> Result<()> {
    let front = bytes_of(row.alloc(), row.cell())?;
    let end = row.cell();
    let behind = bytes_of(row.alloc(), row.cell())?;
    let fails = if end == "ends" {
        None
    } else {
        Some(kind_named(end)?)
    };
    let typed = Typed {
        front: front.as_slice(),
        fails,
        has_ended: false,
        behind: behind.as_slice(),
    };
    check_typed(row, typed)
}

/// Replays a row, which has expressions and an instant. The line with their first fire after the
/// instant replaces what a text held.
pub(crate) fn ask_first_of_any(row: &mut Row<'_>) -> Result<()> {
    let schedules = &sets_of(row.alloc(), row.cell(), "; ")?;
    let table = Union {
        schedules: schedules.as_slice(),
    };
    let start = row.cell().parse()?;
    let mut text = String::from_str(row.alloc(), "what it held")?;
    tell_first("a:", 7, &table, start, &TimeZone::UTC, &mut text)?;
    Ok(add_bytes(row, "", text.as_bytes())?)
}
