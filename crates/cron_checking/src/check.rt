//! A check of the lines that a reader gives: a report is written that says which of them are no
//! cron expressions.

ghost use Rattle.std.specs.Prelude.{◌≡◌, ℕ, List, Option, true, false};
ghost use Rattle.cron_checking.specs.Checks.{Checks, Ends, closing_line, code_of, is_write_failure};
ghost use Rattle.cron_checking.specs.Inner.{TellsAll, TellsNext, end_of};
ghost use Rattle.cron_checking.specs.Puts.{Puts};
ghost use Rattle.cron_checking.specs.Reads.{AreReads};
ghost use Rattle.cron_writer.specs.Calls.{AreWritesFlushed, IsFlushed};
ghost use Rattle.cron_writer.specs.Watching.{has_failed, writer_of, IsSent};
ghost use Rattle.cron_checking.specs.declared.check.Outcome.TheVariants.{WriteFailed};

use crate::line::{Telling, tell_line};
use crate::line_reader::{Given, read_line};
use crate::output::put;
use crate::readable::Readable;
use cron_writer::gathered::Gathered;
use cron_writer::watchable::Watchable;
use cron_writer::watched::Watched;
use std::alloc::Global;

/// How a check ended.
#[derive(Clone, Copy, Debug, PartialEq, Eq)]
pub enum Outcome {
    /// Every line was read, and none was refused: each is an expression, blank, or a comment.
    AllRead,
    /// Every line was read, and one or more of them were refused: they are no expressions.
    SomeRefused,
    /// Memory ran out for a line or for its report, as the allocator or the reader said. A line
    /// that says so was written.
    OutOfMemory,
    /// A write or the flush failed, and nothing more was written.
    WriteFailed,
    /// A call of the reader failed, and a line that says so was written.
    Unreadable,
    /// A line isn't UTF-8, and a line that says so was written.
    NotUtf8,
}

impl Outcome {
    /// The exit status. It is 0 if every line was read and none is refused, 1 if some are refused
    /// or memory ran out. It is 3 if a write failed, and 4 if the lines can't be read.
    pub fn code(self) -> u8
        ensures { result ≡ code_of self }
    {
        match self {
            Outcome::AllRead => 0,
            Outcome::SomeRefused | Outcome::OutOfMemory => 1,
            Outcome::WriteFailed => 3,
            Outcome::Unreadable | Outcome::NotUtf8 => 4,
        }
    }
}

// How a check ends whose lines were all read, by whether one of them was refused.
fn end_of(refused: bool) -> Outcome
    ensures { result ≡ end_of refused }
{
    if refused {
        Outcome::SomeRefused
    } else {
        Outcome::AllRead
    }
}

// Writes the report of one line, and returns true if the line is refused. The error is why the
// check ends at this line: memory ran out, the line isn't UTF-8, or a write failed.
fn tell_next<W: Watchable>(
    how: &Telling<'_>,
    number: u64,
    line: &[u8],
    text: &mut String,
    gathered: &mut Gathered,
    out: &mut Watched<W>,
) -> Result<bool, Outcome>
    ensures { (put : List ℕ) × TellsNext how.now number line.now result put (has_failed out.new)
        × Puts W.contents W.writes gathered.old out.old gathered.new out.new put }
{
    let Ok(told) = tell_line(how, number, line, text) else {
        return Err(Outcome::OutOfMemory);
    };
    put(text.as_bytes(), gathered, out);
    let Some(refused) = told else {
        return Err(Outcome::NotUtf8);
    };
    if out.has_failed() {
        return Err(Outcome::WriteFailed);
    }
    Ok(refused)
}

// Writes the reports of the lines that a reader gives, numbered from 1, until the last one or one
// that ends the check. It returns how the check ends.
fn tell_lines<R: Readable, W: Watchable>(
    alloc: Global,
    how: &Telling<'_>,
    reader: &mut R,
    gathered: &mut Gathered,
    out: &mut Watched<W>,
) -> Outcome
    ensures tells { TellsAll how.now (R.remaining reader.old, R.remaining reader.new)
        W.contents W.writes (gathered.old, out.old) (gathered.new, out.new) result }
    ensures reads { AreReads R.reads reader.old reader.new }
{
    let mut line = Vec::new(alloc);
    let mut text = String::new(alloc);
    let mut refused = false;
    for number in 1..u64::MAX {
        let last = match read_line(reader, &mut line) {
            Given::Line { last } => last,
            Given::End => return end_of(refused),
            Given::OutOfMemory => return Outcome::OutOfMemory,
            Given::Unreadable => return Outcome::Unreadable,
        };
        match tell_next(how, number, line.as_slice(), &mut text, gathered, out) {
            Ok(bad) => refused |= bad,
            Err(end) => return end,
        }
        if last {
            return end_of(refused);
        }
    }
    Outcome::Unreadable
}

/// The last line of a check that ended since memory ran out or the reader failed. For any other end
/// it is empty: no line is needed, or the report has it already.
pub fn closing_line(end: Outcome) -> &'static str
    ensures { result.now ≡ closing_line end }
{
    match end {
        Outcome::OutOfMemory => "error: out of memory\n",
        Outcome::Unreadable => "error: the file can't be read\n",
        _ => "",
    }
}

// Flushes if no write failed. It returns `end`, or `WriteFailed` if a write or the flush failed.
fn finish<W: Watchable>(out: &mut Watched<W>, end: Outcome) -> Outcome
    requires { end ≡ WriteFailed → has_failed out.old ≡ true }
    ensures ends { (origin : Option (List ℕ)) (text : List ℕ)
        → IsSent origin (W.contents (writer_of out.old)) (has_failed out.old) text
        → Ends end text origin (W.contents (writer_of out.new)) result }
    ensures mark { has_failed out.new ≡ is_write_failure result }
    ensures calls { IsFlushed W.flushes
        (writer_of out.old) (has_failed out.old) (writer_of out.new) (has_failed out.new) }
{
    if out.has_failed() {
        return Outcome::WriteFailed;
    }
    let _flushed = out.flush();
    if out.has_failed() {
        return Outcome::WriteFailed;
    }
    end
}

/// Checks the lines that a reader gives, and writes the report on them. The report's lines are
/// passed to the writer in blocks, and the rest of them at the end, before the flush. The reader is
/// called once for each line, and not again after it gave none or failed. The memory for the
/// longest line and for the longest line of the report is kept from line to line. No call of the
/// writer may have failed before.
pub fn check<R: Readable, W: Watchable>(
    alloc: Global,
    how: &Telling<'_>,
    reader: &mut R,
    out: &mut Watched<W>,
) -> Outcome
    requires { has_failed out.old ≡ false }
    ensures checks { Checks how.now
        (R.remaining reader.old) (R.remaining reader.new)
        (W.contents (writer_of out.old)) (W.contents (writer_of out.new)) result }
    ensures reads { AreReads R.reads reader.old reader.new }
    ensures mark { has_failed out.new ≡ is_write_failure result }
    ensures calls { AreWritesFlushed W.writes W.flushes
        (writer_of out.old) (has_failed out.old) (writer_of out.new) (has_failed out.new) }
{
    let mut gathered = Gathered::new();
    let end = tell_lines(alloc, how, reader, &mut gathered, out);
    put(closing_line(end).as_bytes(), &mut gathered, out);
    gathered.send(out);
    finish(out, end)
}
