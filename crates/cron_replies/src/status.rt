//! How a subcommand ends.

ghost use Rattle.std.specs.Prelude.{◌≡◌, ℕ, List, Option, false};
ghost use Rattle.cron_replies.specs.Statuses.{code_of, Ends, is_write_failure, worse};
ghost use Rattle.cron_writer.specs.Calls.{IsFlushed};
ghost use Rattle.cron_writer.specs.Watching.{has_failed, writer_of, IsSent};

use cron_writer::watchable::Watchable;
use cron_writer::watched::Watched;

/// How a subcommand ended.
#[derive(Clone, Copy, Debug, PartialEq, Eq)]
pub enum Status {
    /// It is done, or the answer is yes.
    Done,
    /// The answer is no.
    No,
    /// A word of the command line is wrong.
    WrongWords,
    /// A write or a flush failed.
    WriteFailed,
    /// Something can't be read, or memory ran out.
    Unreadable,
}

impl Status {
    /// The exit status, 0 to 4, in the order of the variants.
    pub fn code(self) -> u8
        ensures { result ≡ code_of self }
    {
        match self {
            Status::Done => 0,
            Status::No => 1,
            Status::WrongWords => 2,
            Status::WriteFailed => 3,
            Status::Unreadable => 4,
        }
    }

    /// The one of two statuses whose exit status is greater.
    pub fn worse(self, other: Status) -> Status
        ensures { result ≡ worse self other }
    {
        if self.code() < other.code() {
            other
        } else {
            self
        }
    }
}

/// Flushes the writer if no call failed. Returns `done`, or `WriteFailed` if a write or the flush
/// failed.
pub fn finish<W: Watchable>(out: &mut Watched<W>, done: Status) -> Status
    requires { is_write_failure done ≡ false }
    ensures ends { (origin : Option (List ℕ)) (text : List ℕ)
        → IsSent origin (W.contents (writer_of out.old)) (has_failed out.old) text
        → Ends done text origin (W.contents (writer_of out.new)) result }
    ensures mark { has_failed out.new ≡ is_write_failure result }
    ensures calls { IsFlushed W.flushes
        (writer_of out.old) (has_failed out.old) (writer_of out.new) (has_failed out.new) }
{
    if out.has_failed() {
        return Status::WriteFailed;
    }
    let _flushed = out.flush();
    if out.has_failed() {
        return Status::WriteFailed;
    }
    done
}
