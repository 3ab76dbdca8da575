//! The items of an expression, or the line that says why it is refused, written to a writer that
//! remembers whether a call failed. The front of that line, `error: `, is decided here.

ghost use Rattle.std.specs.Prelude.{◌≡◌, ℕ, List, [], Option, false};
ghost use Rattle.jiff.specs.Words.{plain_zone};
ghost use Rattle.cron_units.specs.Texts.{error_text};
ghost use Rattle.cron_time.specs.Walk.Cursor.{Steps};
ghost use Rattle.cron_walk_listing.specs.Output.{answers_of, direction, last_item, lines_of, complaint, Ends, GathersItems, HandsOnItems, HandsOnItemsFlushed, IsListing, Writes, is_write_failure};
ghost use Rattle.cron_writer.specs.Calls.{AreWrites, AreWritesFlushed, HandsOnFlushed, IsFlushed};
ghost use Rattle.cron_writer.specs.Watching.{has_failed, kept_in, writer_of, IsGathered, IsSent};
ghost use Rattle.cron_walk_listing.specs.declared.run.Outcome.TheVariants.{Listed, Refused};

use crate::kept_line::KeptLine;
use cron::error::{Error, ErrorKind};
use cron::schedule::Moment;
use cron::{Schedule, ScheduleIterator};
use cron_writer::gathered::Gathered;
use cron_writer::watchable::Watchable;
use cron_writer::watched::{Watched, send};
use jiff::Timestamp;
use jiff::tz::TimeZone;
use std::alloc::Global;

/// How a run ended.
#[derive(Clone, Copy, Debug, PartialEq, Eq)]
pub enum Outcome {
    /// The items were written, fewer than wanted if the walk ended.
    Listed,
    /// The expression was refused, or memory ran out for it, and the one line that says so was
    /// written.
    Refused,
    /// A write or the flush failed, and nothing more was written.
    WriteFailed,
}

/// How a page ended.
#[derive(Clone, Copy, Debug, PartialEq, Eq)]
pub enum Page {
    /// The items were written. The moment is the last of them, or the given item if there was none:
    /// pass it in for the following page.
    Listed(Moment),
    /// The given moment is no item of the schedule in this zone. Nothing was written or flushed.
    NotAnItem,
    /// A write or the flush failed, and nothing more was written.
    WriteFailed,
}

fn neighbour(walk: &mut ScheduleIterator<'_>, back: bool) -> Option<Moment>
    ensures { Steps (direction back) walk.old result walk.new }
{
    if back { walk.next_back() } else { walk.next() }
}

// Gathers the lines of the walk's first `count` items, until the walk ends or a write fails. It
// returns the last item whose line was gathered, `None` if there is none.
fn gather_items<W: Watchable>(
    walk: &mut ScheduleIterator<'_>,
    count: u32,
    back: bool,
    lines: &mut Gathered,
    out: &mut Watched<W>,
) -> Option<Moment>
    requires fresh { has_failed out.old ≡ false }
    requires nothing { kept_in lines.old ≡ [] }
    ensures lines { IsGathered
        (W.contents (writer_of out.old)) (W.contents (writer_of out.new)) (has_failed out.new)
        (kept_in lines.new) (lines_of back walk.old count) }
    ensures last { has_failed out.new ≡ false
        → result ≡ last_item (answers_of back walk.old count) }
    ensures calls { AreWrites W.writes
        (writer_of out.old) (has_failed out.old) (writer_of out.new) (has_failed out.new) }
    ensures gathers { GathersItems W.writes out.old out.new [] (kept_in lines.new) }
{
    let mut line = KeptLine::new();
    let mut last = None;
    for _ in 0..count {
        let Some(moment) = neighbour(walk, back) else {
            return last;
        };
        line.show(&moment);
        line.push_to(lines, out);
        if out.has_failed() {
            return last;
        }
        last = Some(moment);
    }
    last
}

/// Writes the lines of the walk's first `count` items, until the walk ends or a write fails, and
/// returns the last item, `None` if there is none. Lines are passed to the writer in blocks, and
/// the rest of them at the end.
pub(crate) fn send_items<W: Watchable>(
    walk: &mut ScheduleIterator<'_>,
    count: u32,
    back: bool,
    out: &mut Watched<W>,
) -> Option<Moment>
    requires { has_failed out.old ≡ false }
    ensures lines { IsSent
        (W.contents (writer_of out.old)) (W.contents (writer_of out.new)) (has_failed out.new)
        (lines_of back walk.old count) }
    ensures last { has_failed out.new ≡ false
        → result ≡ last_item (answers_of back walk.old count) }
    ensures calls { AreWrites W.writes
        (writer_of out.old) (has_failed out.old) (writer_of out.new) (has_failed out.new) }
    ensures gathers { HandsOnItems W.writes out.old out.new }
{
    let mut lines = Gathered::new();
    let last = gather_items(walk, count, back, &mut lines, out);
    lines.send(out);
    last
}

// The text that an error prints.
fn message_of(error: &Error) -> &str
    ensures { result.now ≡ error_text error.now }
{
    match error.kind() {
        ErrorKind::Expression(text) => text.as_str(),
        ErrorKind::OutOfMemory => "out of memory",
    }
}

// Writes the line that says why an expression is refused.
fn send_complaint<W: Watchable>(error: &Error, out: &mut Watched<W>)
    requires { has_failed out.old ≡ false }
    ensures sent { IsSent
        (W.contents (writer_of out.old)) (W.contents (writer_of out.new)) (has_failed out.new)
        (complaint (error_text error.now)) }
    ensures calls { AreWrites W.writes
        (writer_of out.old) (has_failed out.old) (writer_of out.new) (has_failed out.new) }
{
    send(out, b"error: ");
    send(out, message_of(error).as_bytes());
    send(out, b"\n");
}

/// Flushes if no write failed. It returns `done`, or `WriteFailed` if a write or the flush failed.
pub(crate) fn finish<W: Watchable>(out: &mut Watched<W>, done: Outcome) -> Outcome
    requires { is_write_failure done ≡ false }
    ensures ends { (origin : Option (List ℕ)) (text : List ℕ)
        → IsSent origin (W.contents (writer_of out.old)) (has_failed out.old) text
        → Ends done text origin (W.contents (writer_of out.new)) result }
    ensures mark { has_failed out.new ≡ is_write_failure result }
    ensures whole { is_write_failure result ≡ false → has_failed out.old ≡ false }
    ensures calls { IsFlushed W.flushes
        (writer_of out.old) (has_failed out.old) (writer_of out.new) (has_failed out.new) }
{
    if out.has_failed() {
        return Outcome::WriteFailed;
    }
    let _flushed = out.flush();
    if out.has_failed() {
        return Outcome::WriteFailed;
    }
    done
}

/// Writes the one line that says why nothing is listed, and flushes. It returns `Refused`, or
/// `WriteFailed` if a write or the flush failed. No call of the writer may have failed before.
pub fn refuse<W: Watchable>(out: &mut Watched<W>, line: &str) -> Outcome
    requires { has_failed out.old ≡ false }
    ensures ends { Ends Refused line.now
        (W.contents (writer_of out.old)) (W.contents (writer_of out.new)) result }
    ensures mark { has_failed out.new ≡ is_write_failure result }
    ensures calls { HandsOnFlushed W.writes W.flushes
        (writer_of out.old) (has_failed out.old) (writer_of out.new) (has_failed out.new) line.now }
{
    send(out, line.as_bytes());
    finish(out, Outcome::Refused)
}

/// Writes a line for each of the first `count` items of the expression after `start`, or before it
/// if `back` is true, and flushes. For a refused expression it writes one line that says why. Only
/// the reading takes memory, so a list that was begun doesn't end for lack of it. The list is a
/// walk. A walk that begins in a fold may leave out items after `start`, or begin with `start`
/// itself or an instant before it, and with `back` the other way round.
///
/// Whole lines are passed to the writer together, up to 4,096 bytes a call, and the last of them
/// before the flush. So a reader sees a short list at once, and a long one in blocks. The line of a
/// refused expression comes in three pieces. After a failed call the writer is not called again: it
/// holds what it took before. No call may have failed before this one.
pub fn run<W: Watchable>(
    alloc: Global,
    expression: &str,
    start: Timestamp,
    zone: &TimeZone<'_>,
    count: u32,
    back: bool,
    out: &mut Watched<W>,
) -> Outcome
    requires { has_failed out.old ≡ false }
    ensures writes { Writes expression.now
        (IsListing expression.now (plain_zone zone.now) start.nanosecond count back)
        (W.contents (writer_of out.old)) (W.contents (writer_of out.new)) result }
    ensures mark { has_failed out.new ≡ is_write_failure result }
    ensures calls { AreWritesFlushed W.writes W.flushes
        (writer_of out.old) (has_failed out.old) (writer_of out.new) (has_failed out.new) }
    ensures gathers { result ≡ Listed → HandsOnItemsFlushed W.writes W.flushes out.old out.new }
{
    match Schedule::from_str(alloc, expression) {
        Ok(schedule) => {
            let _last = send_items(&mut schedule.after(start, zone), count, back, out);
            finish(out, Outcome::Listed)
        }
        Err(error) => {
            send_complaint(&error, out);
            finish(out, Outcome::Refused)
        }
    }
}
