//! The fires of a set as rows: the next ones after an instant, the last ones before it, or
//! those between two instants.

ghost use Rattle.std.specs.Prelude.{◌≡◌, [], false};
ghost use Rattle.jiff.specs.Words.{plain_zone};
ghost use Rattle.cron_dues.specs.Due as dues;
ghost use Rattle.cron_dues.specs.DueText.{due_text};
ghost use Rattle.cron_moments.specs.MomentText.{moment_text};
ghost use Rattle.cron_moments.specs.Readings as moments;
ghost use Rattle.cron_writer.specs.Calls.{AreWrites, AreWritesFlushed};
ghost use Rattle.cron_writer.specs.Watching.{has_failed, kept_in, writer_of, IsGathered, IsSent};
ghost use Rattle.cron_plans.specs.Tables.{has_table};
ghost use Rattle.cron_answers.specs.Fires.{dues_of, first_of, is_none_wanted, moments_of, one_less, rows_by, GathersRows, HandsOnRows, HandsOnRowsBy, HandsOnRowsFlushed};
ghost use Rattle.cron_answers.specs.Rows.{rows};
ghost use Rattle.cron_replies.specs.Statuses.{Ends, is_write_failure};
ghost use Rattle.cron_replies.specs.declared.status.Status.TheVariants.{Done};

use crate::back::{dues_before, moments_before};
use crate::left::Left;
use crate::row::{Told, row_of};
use cron_fires::{ClockChanges, Dues, Fires};
use cron_plans::table::Table;
use cron_replies::form::Form;
use cron_replies::status::{Status, finish};
use cron_writer::gathered::Gathered;
use cron_writer::watchable::Watchable;
use cron_writer::watched::Watched;
use jiff::Timestamp;
use jiff::tz::TimeZone;

/// Which fires are listed.
#[derive(Clone, Copy)]
pub enum Asked {
    /// The first fires after the instant: at most this number.
    Next(Timestamp, u64),
    /// The last fires before the instant, the latest first: at most this number.
    Back(Timestamp, u64),
    /// The fires after the first instant, up to and including the second.
    Between(Timestamp, Timestamp),
}

/// Whether no more fires are wanted. `most` is how many are; `None` means all.
pub(crate) fn is_none_wanted(most: Option<u64>) -> bool
    ensures { result ≡ is_none_wanted most }
{
    matches!(most, Some(0))
}

/// How many fires are wanted after one more was taken. `None` means all.
pub(crate) fn one_less(most: Option<u64>) -> Option<u64>
    requires { is_none_wanted most ≡ false }
    ensures { result ≡ one_less most }
{
    match most {
        Some(count) => Some(count - 1),
        None => None,
    }
}

// Gathers the rows of the first `most` fires that are left, or of all if `most` is `None`, until a
// write fails.
fn gather_rows<F: Told, L: Left<F>, W: Watchable>(
    left: &mut L,
    most: Option<u64>,
    form: Form,
    lines: &mut Gathered,
    out: &mut Watched<W>,
)
    requires fresh { has_failed out.old ≡ false }
    requires nothing { kept_in lines.old ≡ [] }
    ensures rows { IsGathered
        (W.contents (writer_of out.old)) (W.contents (writer_of out.new)) (has_failed out.new)
        (kept_in lines.new) (rows form F.text F.second (first_of most (L.left left.old))) }
    ensures calls { AreWrites W.writes
        (writer_of out.old) (has_failed out.old) (writer_of out.new) (has_failed out.new) }
    ensures gathers { GathersRows W.writes form F.text F.second
        out.old out.new [] (kept_in lines.new) }
{
    let mut more = most;
    'fires: while !is_none_wanted(more) {
        let Some(fire) = left.take_first() else {
            return;
        };
        lines.push_line(row_of(form, &fire).as_slice(), out);
        if out.has_failed() {
            return;
        }
        more = one_less(more);
    }
}

/// Writes the rows of the first `most` fires that are left, or of all if `most` is `None`, until a
/// write fails. Many rows are handed to the writer at a time, and the rest at the end.
pub(crate) fn send_rows<F: Told, L: Left<F>, W: Watchable>(
    left: &mut L,
    most: Option<u64>,
    form: Form,
    out: &mut Watched<W>,
)
    requires { has_failed out.old ≡ false }
    ensures rows { IsSent
        (W.contents (writer_of out.old)) (W.contents (writer_of out.new)) (has_failed out.new)
        (rows form F.text F.second (first_of most (L.left left.old))) }
    ensures calls { AreWrites W.writes
        (writer_of out.old) (has_failed out.old) (writer_of out.new) (has_failed out.new) }
    ensures gathers { HandsOnRows W.writes form F.text F.second out.old out.new }
{
    let mut lines = Gathered::new();
    gather_rows(left, most, form, &mut lines, out);
    lines.send(out);
}

// Writes the rows of the requested fires. Each time when the clock shows a match is a fire.
fn send_moments<W: Watchable>(
    table: &Table<'_>,
    asked: &Asked,
    zone: &TimeZone<'_>,
    form: Form,
    out: &mut Watched<W>,
)
    requires { has_failed out.old ≡ false }
    ensures rows { IsSent
        (W.contents (writer_of out.old)) (W.contents (writer_of out.new)) (has_failed out.new)
        (rows form moment_text moments.instant
        (moments_of asked.now (has_table table.now) (plain_zone zone.now))) }
    ensures calls { AreWrites W.writes
        (writer_of out.old) (has_failed out.old) (writer_of out.new) (has_failed out.new) }
    ensures gathers { HandsOnRows W.writes form moment_text moments.instant out.old out.new }
{
    match *asked {
        Asked::Next(start, count) => {
            let mut run = Fires::after(table, start, zone);
            send_rows(&mut run, Some(count), form, out);
        }
        Asked::Back(end, count) => {
            let mut run = moments_before(table, end, zone);
            send_rows(&mut run, Some(count), form, out);
        }
        Asked::Between(start, end) => {
            let mut run = Fires::between(table, start, end, zone);
            send_rows(&mut run, None, form, out);
        }
    }
}

// Writes the rows of the requested fires. Each match is a fire once, also where the clock changes.
fn send_dues<W: Watchable>(
    table: &Table<'_>,
    asked: &Asked,
    zone: &TimeZone<'_>,
    form: Form,
    out: &mut Watched<W>,
)
    requires { has_failed out.old ≡ false }
    ensures rows { IsSent
        (W.contents (writer_of out.old)) (W.contents (writer_of out.new)) (has_failed out.new)
        (rows form due_text dues.instant
        (dues_of asked.now (has_table table.now) (plain_zone zone.now))) }
    ensures calls { AreWrites W.writes
        (writer_of out.old) (has_failed out.old) (writer_of out.new) (has_failed out.new) }
    ensures gathers { HandsOnRows W.writes form due_text dues.instant out.old out.new }
{
    match *asked {
        Asked::Next(start, count) => {
            let mut run = Dues::after(table, start, zone);
            send_rows(&mut run, Some(count), form, out);
        }
        Asked::Back(end, count) => {
            let mut run = dues_before(table, end, zone);
            send_rows(&mut run, Some(count), form, out);
        }
        Asked::Between(start, end) => {
            let mut run = Dues::between(table, start, end, zone);
            send_rows(&mut run, None, form, out);
        }
    }
}

/// Writes the rows of the requested fires by the rule `changes`, until a write fails.
pub(crate) fn send_fires<W: Watchable>(
    table: &Table<'_>,
    changes: ClockChanges,
    asked: &Asked,
    zone: &TimeZone<'_>,
    form: Form,
    out: &mut Watched<W>,
)
    requires { has_failed out.old ≡ false }
    ensures rows { IsSent
        (W.contents (writer_of out.old)) (W.contents (writer_of out.new)) (has_failed out.new)
        (rows_by changes form asked.now (has_table table.now) (plain_zone zone.now)) }
    ensures calls { AreWrites W.writes
        (writer_of out.old) (has_failed out.old) (writer_of out.new) (has_failed out.new) }
    ensures gathers { HandsOnRowsBy changes W.writes form out.old out.new }
{
    match changes {
        ClockChanges::AsShown => send_moments(table, asked, zone, form, out),
        ClockChanges::Once => send_dues(table, asked, zone, form, out),
    }
}

/// Writes a row for each requested fire by the rule `changes`, in order, and flushes. Nothing is
/// allocated. Whole rows are handed to the writer together, up to 4,096 bytes a call, and the last
/// of them before the flush. Once a call fails, the writer is not called again: it holds what it
/// took before. No call may have failed before.
pub fn list<W: Watchable>(
    table: &Table<'_>,
    changes: ClockChanges,
    asked: &Asked,
    zone: &TimeZone<'_>,
    form: Form,
    out: &mut Watched<W>,
) -> Status
    requires { has_failed out.old ≡ false }
    ensures lists { Ends Done
        (rows_by changes form asked.now (has_table table.now) (plain_zone zone.now))
        (W.contents (writer_of out.old)) (W.contents (writer_of out.new)) result }
    ensures mark { has_failed out.new ≡ is_write_failure result }
    ensures calls { AreWritesFlushed W.writes W.flushes
        (writer_of out.old) (has_failed out.old) (writer_of out.new) (has_failed out.new) }
    ensures gathers { HandsOnRowsFlushed changes
        W.writes W.flushes form out.old out.new }
{
    send_fires(table, changes, asked, zone, form, out);
    finish(out, Status::Done)
}
