//! Writes a calendar to a writer that remembers whether a call of it failed.
ghost use Rattle.std.specs.Prelude.{◌≡◌, ◌<◌, ◌≤◌, List, ℕ, Option, IfErr, OnErr, OnOk, false};
ghost use Rattle.cron_ics.specs.Calendars.{IsCalendar, IsRefusal, total};
ghost use Rattle.cron_writer.specs.Calls.{HandsOnFlushed, IsFlushed};
ghost use Rattle.cron_writer.specs.Watching.{has_failed, writer_of, IsSent};

use crate::calendar::{Wanted, calendar};
use crate::entry::Entry;
use crate::error::IcsError;
use cron_writer::watchable::Watchable;
use cron_writer::watched::{Watched, send};
use std::alloc::Global;

/// Flushes the writer, unless a call of the writer has failed.
pub(crate) fn flush<W: Watchable>(out: &mut Watched<W>)
    ensures bytes { (origin : Option (List ℕ)) (text : List ℕ)
        → IsSent origin (W.contents (writer_of out.old)) (has_failed out.old) text
        → IsSent origin (W.contents (writer_of out.new)) (has_failed out.new) text }
    ensures calls { IsFlushed W.flushes
        (writer_of out.old) (has_failed out.old) (writer_of out.new) (has_failed out.new) }
{
    if !out.has_failed() {
        let _flushed = out.flush();
    }
}

/// Writes the calendar of `entries` once it is complete, and flushes. On an error nothing is
/// written. The writer records whether a call of it failed: then it isn't called again, and holds
/// what it took before. No call of the writer may have failed before.
pub fn write_calendar<W: Watchable>(
    alloc: Global,
    entries: &[Entry<'_>],
    wanted: &Wanted<'_>,
    out: &mut Watched<W>,
) -> Result<(), IcsError>
    requires { has_failed out.old ≡ false }
    ensures writes { OnOk result ((text : List ℕ) × IsCalendar wanted.now entries.now text
        × IsSent (W.contents (writer_of out.old)) (W.contents (writer_of out.new))
        (has_failed out.new) text
        × HandsOnFlushed W.writes W.flushes
        (writer_of out.old) (has_failed out.old) (writer_of out.new) (has_failed out.new) text) }
    ensures some { OnOk result (0 < total wanted.now entries.now) }
    ensures few { OnOk result (total wanted.now entries.now ≤ wanted.now.most) }
    ensures untouched { OnErr result (out.new ≡ out.old) }
    ensures refused { IfErr result (IsRefusal wanted.now entries.now) }
{
    let page = calendar(alloc, entries, wanted)?;
    send(out, page.as_slice());
    flush(out);
    Ok(())
}
