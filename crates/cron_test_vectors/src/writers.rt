//! A writer that may fail on the way, and what it was handed. A row has `all`, or how many bytes
//! the writer takes in all, how many in one call, how it fails then, and whether it flushes.

ghost use Rattle.std.specs.Prelude.{Some};

use crate::answers::add_bytes;
use crate::words::first_word;
use anyhow::{Result, bail};
use cron_test_rows::Row;
use cron_writer::watched::{Watched, send};
use std::alloc::Global;
use std::io::{self, ErrorKind, Write};

/// A writer that takes at most `step` bytes in a call and `room` bytes in all, and then fails.
#[derive(Drop)]
pub(crate) struct Limited {
    held: Vec<u8>,
    room: usize,
    /// How many more bytes it takes after a call has failed.
    rest: usize,
    step: usize,
    /// The error of a failed call. If it is `None`, a write takes 0 bytes.
    kind: Option<ErrorKind>,
    flushes: bool,
    /// The calls. A write is the length of its piece, with `.` if the piece doesn't end a line and
    /// `!` if no byte of it can be taken. A flush is `flush`, with `!` if it fails.
    calls: String,
}

/// The kind of error with this name.
pub(crate) fn kind_named(name: &str) -> Result<ErrorKind> {
    match name {
        "BrokenPipe" => Ok(ErrorKind::BrokenPipe),
        "ConnectionReset" => Ok(ErrorKind::ConnectionReset),
        "Interrupted" => Ok(ErrorKind::Interrupted),
        "IsADirectory" => Ok(ErrorKind::IsADirectory),
        "OutOfMemory" => Ok(ErrorKind::OutOfMemory),
        "WouldBlock" => Ok(ErrorKind::WouldBlock),
        _ => bail!("{name:?} is no kind of error"),
    }
}

impl Limited {
    /// A writer that takes every byte.
    pub(crate) fn new(alloc: Global) -> Limited {
        Limited {
            held: Vec::new(alloc),
            room: usize::MAX,
            rest: 0,
            step: usize::MAX,
            kind: None,
            flushes: true,
            calls: String::new(alloc),
        }
    }

    /// The writer that the next cell of a row describes.
    pub(crate) fn of(row: &mut Row<'_>) -> Result<Limited> {
        let mut writer = Limited::new(row.alloc());
        let words = row.cell();
        if words == "all" {
            return Ok(writer);
        }
        let (room, words) = first_word(words);
        let (step, words) = first_word(words);
        let (kind, end) = first_word(words);
        // a dash is no number, and stands for no limit
        writer.room = room.parse().unwrap_or(usize::MAX);
        writer.step = step.parse().unwrap_or(usize::MAX);
        writer.flushes = end != "unflushed";
        if end == "once" {
            writer.rest = usize::MAX;
        }
        if kind != "nothing" {
            writer.kind = Some(kind_named(kind)?);
        }
        Ok(writer)
    }

    /// Adds the bytes that the writer holds, and its calls.
    pub(crate) fn add_to(&self, row: &mut Row<'_>) -> Result<()> {
        add_bytes(row, " ", self.held.as_slice())?;
        Ok(add_bytes(row, ", calls ", self.calls.as_bytes())?)
    }
}

impl Write for Limited {
    ghost contents = { λ w. Some w.held.items };

    fn write(&mut self, buf: &[u8]) -> io::Result<usize> {
        let count = buf.len().min(self.step).min(self.room);
        let cut = if buf.ends_with(b"\n") { "" } else { "." };
        let mark = if count == 0 { "!" } else { "" };
        write!(self.calls, " {}{cut}{mark}", buf.len())?;
        if self.room == 0 {
            self.room = self.rest;
            return match self.kind {
                Some(kind) => Err(io::Error::from(kind)),
                None => Ok(0),
            };
        }
        self.held.extend_from_slice(&buf[..count])?;
        self.room -= count;
        Ok(count)
    }

    fn flush(&mut self) -> io::Result<()> {
        if self.flushes {
            return Ok(self.calls.push_str(" flush")?);
        }
        self.calls.push_str(" flush!")?;
        Err(io::Error::from(self.kind.unwrap_or(ErrorKind::BrokenPipe)))
    }
}

/// Makes a call of a watched writer, and adds the answer and whether the writer has failed.
fn add_call(row: &mut Row<'_>, out: &mut Watched<Limited>, call: &str) -> Result<()> {
    match first_word(call) {
        ("flush", _) => {
            let flushed = out.flush().map_err(|error| error.kind());
            row.add(", ", &format_args!("{flushed:?}"))?;
        }
        ("send", text) => {
            send(out, text.as_bytes());
            row.add(", ", &"sent")?;
        }
        (_, text) => {
            let written = out.write(text.as_bytes()).map_err(|error| error.kind());
            row.add(", ", &format_args!("{written:?}"))?;
        }
    }
    Ok(row.add(" ", &out.has_failed())?)
}

/// Replays a row, which has a writer, and calls with `;` between them. The answer has whether the
/// writer has failed at first and after each call, and what each call answers.
pub(crate) fn ask_watched(row: &mut Row<'_>) -> Result<()> {
    let mut out = Watched::new(Limited::of(row)?);
    row.add("", &out.has_failed())?;
    for call in row.cell().split(';') {
        add_call(row, &mut out, call)?;
    }
    out.into_inner().add_to(row)
}
