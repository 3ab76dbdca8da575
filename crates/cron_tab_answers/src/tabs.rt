//! The fires of crontabs' entries as rows, in one order.

ghost use Rattle.std.specs.Prelude.{◌≡◌, false, map};
ghost use Rattle.jiff.specs.Words.{plain_zone};
ghost use Rattle.cron_tab_answers.specs.Inner.TabRows.{GathersTabs, fault_of, list_end};
ghost use Rattle.cron_tab_answers.specs.TabRows.{ListsTabs, is_failed, wanted};
ghost use Rattle.cron_writer.specs.Calls.{AreWritesFlushed};
ghost use Rattle.cron_writer.specs.Watching.{has_failed, writer_of};

use crate::fault::ListFault;
use crate::tab_row::{Style, make_row};
use cron_agenda::Agenda;
use cron_checking::output::put;
use cron_looks::is_out_of_memory;
use cron_replies::status::{Status, finish};
use cron_tab_agenda::{TabEntry, next_fire};
use cron_tab_rows::source::Source;
use cron_writer::gathered::Gathered;
use cron_writer::watchable::Watchable;
use cron_writer::watched::Watched;
use jiff::Timestamp;
use jiff::tz::TimeZone;
use jiff_core::Error;
use std::alloc::Global;

// Why a list ends where a row can't be made.
fn fault_of(error: &Error) -> ListFault
    ensures { result ≡ fault_of error.now }
{
    if is_out_of_memory(error) {
        ListFault::OutOfMemory
    } else {
        ListFault::Format
    }
}

// Gathers the rows of the fires up to and including `until`, at most `limit` of them, until a write
// fails.
fn gather_tabs<W: Watchable>(
    alloc: Global,
    style: &Style<'_>,
    agenda: &mut Agenda<TabEntry>,
    sources: &[Source<'_>],
    until: Timestamp,
    limit: usize,
    zones: &[TimeZone<'_>],
    gathered: &mut Gathered,
    out: &mut Watched<W>,
) -> Result<(), ListFault>
    ensures { GathersTabs style.now
        (wanted (map plain_zone zones.now) until.nanosecond limit sources.now style.now.times)
        agenda.old W.contents W.writes (gathered.old, out.old) (gathered.new, out.new) result }
{
    let mut row = Vec::new(alloc);
    for _ in 0..limit {
        let next = match next_fire(agenda, until, zones) {
            Ok(next) => next,
            Err(missing) => return Err(ListFault::Zone(missing)),
        };
        let Some(fire) = next else {
            return Ok(());
        };
        let Some(source) = sources.get(fire.id as usize) else {
            return Err(ListFault::Source);
        };
        row = match make_row(alloc, style, source, &fire, row) {
            Ok(made) => made,
            Err(error) => return Err(fault_of(&error)),
        };
        put(row.as_slice(), gathered, out);
        if out.has_failed() {
            return Ok(());
        }
    }
    Ok(())
}

// How a list ends. If a write failed, that is `status`, which takes precedence over a fault.
fn list_end(answer: Result<(), ListFault>, status: Status) -> Result<Status, ListFault>
    ensures { result ≡ list_end answer status }
{
    match (answer, status) {
        (Err(fault), Status::Done) => Err(fault),
        _ => Ok(status),
    }
}

/// Writes a row for each fire of an agenda's entries up to and including `until`, at most `limit`
/// rows, and flushes. Fires are ordered by instant. Those of one instant are in the order of adding
/// their entries. The index of an entry's source is the entry's id. If the list ends by a fault,
/// the rows before it are written. No call of the writer may have failed before.
pub fn list<W: Watchable>(
    alloc: Global,
    style: &Style<'_>,
    agenda: &mut Agenda<TabEntry>,
    sources: &[Source<'_>],
    until: Timestamp,
    limit: usize,
    zones: &[TimeZone<'_>],
    out: &mut Watched<W>,
) -> Result<Status, ListFault>
    requires { has_failed out.old ≡ false }
    ensures lists { ListsTabs style.now
        (wanted (map plain_zone zones.now) until.nanosecond limit sources.now style.now.times) agenda.old
        (W.contents (writer_of out.old)) (W.contents (writer_of out.new)) result }
    ensures mark { has_failed out.new ≡ is_failed result }
    ensures calls { AreWritesFlushed W.writes W.flushes
        (writer_of out.old) (has_failed out.old) (writer_of out.new) (has_failed out.new) }
{
    let mut gathered = Gathered::new();
    let answer = gather_tabs(
        alloc,
        style,
        agenda,
        sources,
        until,
        limit,
        zones,
        &mut gathered,
        out,
    );
    gathered.send(out);
    list_end(answer, finish(out, Status::Done))
}
