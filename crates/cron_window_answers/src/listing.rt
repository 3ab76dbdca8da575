//! The windows between two instants as rows.

ghost use Rattle.std.specs.Prelude.{◌≡◌, [], false};
ghost use Rattle.jiff.specs.Words.{plain_zone};
ghost use Rattle.cron_stretches.specs.Fires.{second_of};
ghost use Rattle.cron_windows.specs.Windows.{is_open, windows_between};
ghost use Rattle.cron_writer.specs.Calls.{AreWrites, AreWritesFlushed};
ghost use Rattle.cron_writer.specs.Watching.{has_failed, kept_in, writer_of, IsGathered, IsSent};
ghost use Rattle.cron_replies.specs.Statuses.{is_write_failure};
ghost use Rattle.cron_window_answers.specs.Listings.{ListsBetween};
ghost use Rattle.cron_window_answers.specs.Rows.{rows};

use crate::row::row_of;
use cron_fires::{CivilSeconds, Rule};
use cron_replies::form::Form;
use cron_replies::status::{Status, finish};
use cron_stretches::fires::{instant_at, whole_second};
use cron_windows::windows::Windows;
use cron_writer::gathered::Gathered;
use cron_writer::watchable::Watchable;
use cron_writer::watched::Watched;
use jiff::Timestamp;
use jiff::tz::TimeZone;

// Gathers the rows of the windows from `from` on and before `to`, until a write fails.
fn gather_rows<S: CivilSeconds, C: CivilSeconds, R: Rule, W: Watchable>(
    windows: &Windows<'_, S, C, R>,
    from: Timestamp,
    to: Timestamp,
    zone: &TimeZone<'_>,
    form: Form,
    lines: &mut Gathered,
    out: &mut Watched<W>,
)
    requires fresh { has_failed out.old ≡ false }
    requires nothing { kept_in lines.old ≡ [] }
    ensures rows { IsGathered
        (W.contents (writer_of out.old)) (W.contents (writer_of out.new)) (has_failed out.new)
        (kept_in lines.new) (rows form (plain_zone zone.now)
        (windows_between (is_open windows.now) (second_of from.nanosecond)
        (second_of to.nanosecond))) }
    ensures calls { AreWrites W.writes
        (writer_of out.old) (has_failed out.old) (writer_of out.new) (has_failed out.new) }
{
    let mut left = windows.open_between(from, to);
    'windows: while let Some(window) = left.next() {
        lines.push_line(row_of(form, zone, &window).as_slice(), out);
        if out.has_failed() {
            return;
        }
    }
}

// Writes the rows of the windows from `from` on and before `to`, until a write fails. Many rows are
// handed to the writer at a time, and the rest at the end.
fn send_rows<S: CivilSeconds, C: CivilSeconds, R: Rule, W: Watchable>(
    windows: &Windows<'_, S, C, R>,
    from: Timestamp,
    to: Timestamp,
    zone: &TimeZone<'_>,
    form: Form,
    out: &mut Watched<W>,
)
    requires { has_failed out.old ≡ false }
    ensures rows { IsSent
        (W.contents (writer_of out.old)) (W.contents (writer_of out.new)) (has_failed out.new)
        (rows form (plain_zone zone.now) (windows_between (is_open windows.now)
        (second_of from.nanosecond) (second_of to.nanosecond))) }
    ensures calls { AreWrites W.writes
        (writer_of out.old) (has_failed out.old) (writer_of out.new) (has_failed out.new) }
{
    let mut lines = Gathered::new();
    gather_rows(windows, from, to, zone, form, &mut lines, out);
    lines.send(out);
}

/// Writes a row for each window of the whole seconds from `from` on and before `to`, in order, and
/// flushes. The first and the last are cut there. No call of the writer may have failed before.
pub(crate) fn list<S: CivilSeconds, C: CivilSeconds, R: Rule, W: Watchable>(
    windows: &Windows<'_, S, C, R>,
    from: Timestamp,
    to: Timestamp,
    zone: &TimeZone<'_>,
    form: Form,
    out: &mut Watched<W>,
) -> Status
    requires { has_failed out.old ≡ false }
    ensures lists { ListsBetween form (plain_zone zone.now) windows.now
        from.nanosecond to.nanosecond
        (W.contents (writer_of out.old)) (W.contents (writer_of out.new)) result }
    ensures mark { has_failed out.new ≡ is_write_failure result }
    ensures calls { AreWritesFlushed W.writes W.flushes
        (writer_of out.old) (has_failed out.old) (writer_of out.new) (has_failed out.new) }
{
    let first = instant_at(whole_second(from));
    let end = instant_at(whole_second(to));
    send_rows(windows, first, end, zone, form, out);
    finish(out, Status::Done)
}
