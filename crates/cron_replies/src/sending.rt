//! The reply of a subcommand that writes only bytes made beforehand.

ghost use Rattle.std.specs.Prelude.{◌≡◌, false};
ghost use Rattle.cron_writer.specs.Calls.{AreWritesFlushed};
ghost use Rattle.cron_writer.specs.Watching.{has_failed, writer_of};
ghost use Rattle.cron_replies.specs.Statuses.{Ends, is_write_failure};

use crate::status::{Status, finish};
use cron_writer::watchable::Watchable;
use cron_writer::watched::{Watched, send};

/// Writes all of `bytes` and flushes. Returns `done`, or `WriteFailed` if a call of the writer
/// fails. No call of it may have failed before.
pub fn send_bytes<W: Watchable>(bytes: &[u8], done: Status, out: &mut Watched<W>) -> Status
    requires out { has_failed out.old ≡ false }
    requires done { is_write_failure done ≡ false }
    ensures ends { Ends done bytes.now
        (W.contents (writer_of out.old)) (W.contents (writer_of out.new)) result }
    ensures mark { has_failed out.new ≡ is_write_failure result }
    ensures calls { AreWritesFlushed W.writes W.flushes
        (writer_of out.old) (has_failed out.old) (writer_of out.new) (has_failed out.new) }
{
    send(out, bytes);
    finish(out, done)
}
