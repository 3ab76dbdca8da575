//! The answer of the program `cron_next` to the arguments of a command line: the list, or the usage
//! line. The text of the usage line, and when it is written, is decided here.

ghost use Rattle.std.specs.Prelude.{◌≡◌, false, map, string_bytes};
ghost use Rattle.cron_walk_listing.specs.Answers.{IsAnswered, IsUsage, Lists, code_of, is_failed, status_of, usage_line};
ghost use Rattle.cron_writer.specs.Calls.{AreWritesFlushed, HandsOnFlushed};
ghost use Rattle.cron_writer.specs.Watching.{has_failed, writer_of};

use crate::arguments::{Request, request_of};
use crate::run::{Outcome, refuse, run};
use cron_writer::watchable::Watchable;
use cron_writer::watched::Watched;
use std::alloc::Global;

const USAGE: &str = "usage: cron_next EXPRESSION START ZONE COUNT [back]\n";

/// How an invocation ended.
#[derive(Clone, Copy, Debug, PartialEq, Eq)]
pub enum Status {
    /// The items were listed, also if there are none.
    Listed,
    /// The expression was refused, or memory ran out for it or for the arguments. The line that
    /// says so was written.
    Refused,
    /// The arguments can't be read, and the usage line was written.
    BadArguments,
    /// A write or the flush failed.
    WriteFailed,
}

impl Status {
    /// The exit status: 0, 1, 2 or 3, in the order of the variants.
    pub fn code(self) -> u8
        ensures { result ≡ code_of self }
    {
        match self {
            Status::Listed => 0,
            Status::Refused => 1,
            Status::BadArguments => 2,
            Status::WriteFailed => 3,
        }
    }
}

impl From<Outcome> for Status {
    ghost from_gives = { λ outcome status. status ≡ status_of outcome };

    fn from(outcome: Outcome) -> Status {
        match outcome {
            Outcome::Listed => Status::Listed,
            Outcome::Refused => Status::Refused,
            Outcome::WriteFailed => Status::WriteFailed,
        }
    }
}

// Writes the list that the arguments ask for.
fn list<W: Watchable>(alloc: Global, request: &Request<'_>, out: &mut Watched<W>) -> Status
    requires { has_failed out.old ≡ false }
    ensures answered { Lists request.now
        (W.contents (writer_of out.old)) (W.contents (writer_of out.new)) result }
    ensures mark { has_failed out.new ≡ is_failed result }
    ensures calls { AreWritesFlushed W.writes W.flushes
        (writer_of out.old) (has_failed out.old) (writer_of out.new) (has_failed out.new) }
{
    let outcome = run(
        alloc,
        request.expression,
        request.start,
        &request.zone,
        request.count,
        request.back,
        out,
    );
    Status::from(outcome)
}

/// Writes the usage line, and flushes. It returns `BadArguments`, or `WriteFailed` if a write or
/// the flush failed. No call of the writer may have failed before.
pub fn usage<W: Watchable>(out: &mut Watched<W>) -> Status
    requires { has_failed out.old ≡ false }
    ensures answered { IsUsage
        (W.contents (writer_of out.old)) (W.contents (writer_of out.new)) result }
    ensures mark { has_failed out.new ≡ is_failed result }
    ensures calls { HandsOnFlushed W.writes W.flushes
        (writer_of out.old) (has_failed out.old)
        (writer_of out.new) (has_failed out.new) usage_line }
{
    match refuse(out, USAGE) {
        Outcome::WriteFailed => Status::WriteFailed,
        _ => Status::BadArguments,
    }
}

/// Answers the arguments after the program's name: writes the list, or the line that says why there
/// is none. No call of the writer may have failed before.
pub fn answer<W: Watchable>(alloc: Global, arguments: &[String], out: &mut Watched<W>) -> Status
    requires { has_failed out.old ≡ false }
    ensures answered { IsAnswered (map string_bytes arguments.now)
        (W.contents (writer_of out.old)) (W.contents (writer_of out.new)) result }
    ensures mark { has_failed out.new ≡ is_failed result }
    ensures calls { AreWritesFlushed W.writes W.flushes
        (writer_of out.old) (has_failed out.old) (writer_of out.new) (has_failed out.new) }
{
    match request_of(arguments) {
        Some(request) => list(alloc, &request, out),
        None => usage(out),
    }
}
