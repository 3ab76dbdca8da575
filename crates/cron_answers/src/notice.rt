//! The notices on stamps, which are files that hold the last fire that was done. They go to
//! standard error.

ghost use Rattle.std.specs.Prelude.{◌≡◌, false};
ghost use Rattle.cron_writer.specs.Calls.{AreWritesFlushed};
ghost use Rattle.cron_writer.specs.Watching.{has_failed, writer_of};
ghost use Rattle.cron_answers.specs.Notices.{IsSaid, back_of, front_of, notice_status};
ghost use Rattle.cron_replies.specs.Statuses.{is_write_failure};

use cron_replies::status::{Status, finish};
use cron_writer::watchable::Watchable;
use cron_writer::watched::{Watched, send};
use std::alloc::Global;

/// A notice on a stamp, or on a word that should be a fire.
#[derive(Clone, Copy, Debug, PartialEq, Eq)]
pub enum Notice {
    /// There is no stamp, so the last fire is due.
    NoStamp,
    /// The stamp is later than now, so the last fire is due.
    Ahead,
    /// The stamp notes a later fire, and is kept.
    Older,
    /// The word is no fire.
    NoFire,
    /// The stamp can't be read.
    Unread,
    /// The file is no stamp, or is cut short, and is kept.
    Broken,
    /// The stamp can't be written.
    Unwritten,
}

fn front_of(notice: Notice) -> &'static str
    ensures { result.now ≡ front_of notice }
{
    match notice {
        Notice::NoStamp => "note: there is no stamp ",
        Notice::Ahead | Notice::Older => "note: the stamp ",
        Notice::NoFire => "error: '",
        Notice::Unread | Notice::Unwritten => "error: the stamp ",
        Notice::Broken => "error: ",
    }
}

fn back_of(notice: Notice) -> &'static str
    ensures { result.now ≡ back_of notice }
{
    match notice {
        Notice::NoStamp => ", so the last fire is due\n",
        Notice::Ahead => " is later than now, so the last fire is due\n",
        Notice::Older => " notes a later fire, and is kept\n",
        Notice::NoFire => "' is no fire as it is printed\n",
        Notice::Unread => " can't be read\n",
        Notice::Broken => " is no stamp, or one that is cut short, and is kept\n",
        Notice::Unwritten => " can't be written\n",
    }
}

// The status of a subcommand that ends after the notice.
fn status_of(notice: Notice) -> Status
    ensures { result ≡ notice_status notice }
{
    match notice {
        Notice::NoStamp | Notice::Ahead | Notice::Older => Status::Done,
        Notice::NoFire => Status::WrongWords,
        Notice::Unread | Notice::Broken | Notice::Unwritten => Status::Unreadable,
    }
}

/// Writes the line of the notice, and flushes. `word` is the stamp's path, or the text that is no
/// fire. If memory runs out for the line, it says that instead. No call of the writer may have
/// failed before.
pub(crate) fn say<W: Watchable>(
    alloc: Global,
    notice: Notice,
    word: &str,
    out: &mut Watched<W>,
) -> Status
    requires { has_failed out.old ≡ false }
    ensures said { IsSaid notice word.now
        (W.contents (writer_of out.old)) (W.contents (writer_of out.new)) result }
    ensures mark { has_failed out.new ≡ is_write_failure result }
    ensures calls { AreWritesFlushed W.writes W.flushes
        (writer_of out.old) (has_failed out.old) (writer_of out.new) (has_failed out.new) }
{
    let front = front_of(notice);
    let back = back_of(notice);
    match format!(in alloc; "{front}{word}{back}") {
        Ok(line) => {
            send(out, line.as_bytes());
            finish(out, status_of(notice))
        }
        Err(_) => {
            send(out, b"error: out of memory\n");
            finish(out, Status::Unreadable)
        }
    }
}
