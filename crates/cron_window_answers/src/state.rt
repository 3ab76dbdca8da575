//! Whether a window is open at an instant, since when and until when.

ghost use Rattle.std.specs.Prelude.{◌≡◌, ◌≤◌, ◌+◌, ◌++◌, ◌≤ℤ◌, ◌<ℤ◌, pos, false};
ghost use Rattle.std.specs.Bool.{beq};
ghost use Rattle.arrayvec.specs.ArrayVec.{array_vec_len};
ghost use Rattle.jiff.specs.Words.{plain_zone};
ghost use Rattle.cron_stretches.specs.Fires.{IsInstant};
ghost use Rattle.cron_stretches.specs.Stretches.{IsGreatest};
ghost use Rattle.cron_windows.specs.Windows.{is_open};
ghost use Rattle.cron_writer.specs.Calls.{AreWritesFlushed};
ghost use Rattle.cron_writer.specs.Watching.{has_failed, writer_of};
ghost use Rattle.cron_replies.specs.Statuses.{is_write_failure};
ghost use Rattle.cron_window_answers.specs.States.{SaysState, asked_second, bool_word, bounds_around, edge_text, end_of, first_of, json_line, line, since_text, state_status, state_word, text_line, until_text};

use crate::text::{Line, push_bytes, push_instant};
use cron_fires::{CivilSeconds, Rule};
use cron_replies::form::Form;
use cron_replies::sending::send_bytes;
use cron_replies::status::Status;
use cron_stretches::fires::{instant_at, second_of};
use cron_stretches::stretch::Stretch;
use cron_windows::windows::Windows;
use cron_writer::watchable::Watchable;
use cron_writer::watched::Watched;
use jiff::Timestamp;
use jiff::tz::TimeZone;

/// The seconds of 400 days.
const REACH: i64 = 34_560_000;

/// The first second that a `Timestamp` names.
const FIRST: i64 = -377_705_023_201;

/// The last one.
const LAST: i64 = 253_402_207_200;

/// A second, and how far the state there is followed back and ahead.
#[derive(Clone, Copy)]
pub(crate) struct Bounds {
    from: i64,
    at: i64,
    to: i64,
}

// The second in question: the one that an instant lies in. The last of all counts as the one
// before it.
fn asked_second(at: Timestamp) -> i64
    ensures second { result ≡ asked_second at.nanosecond }
    ensures in_range { IsInstant result }
    ensures early { result <ℤ pos 253_402_207_200 }
{
    second_of(at).min(LAST - 1)
}

// The earliest second of the state's search.
fn first_of(at: i64) -> i64
    requires { IsInstant at }
    ensures second { result ≡ first_of at }
    ensures in_range { IsInstant result }
    ensures early { result ≤ℤ at }
{
    (at - REACH).max(FIRST)
}

// The end of the state's search.
fn end_of(at: i64) -> i64
    requires instant { IsInstant at }
    requires early { at <ℤ pos 253_402_207_200 }
    ensures second { result ≡ end_of at }
    ensures in_range { IsInstant result }
    ensures later { at <ℤ result }
{
    (at + REACH).min(LAST)
}

// The bounds around an instant.
fn bounds_around(at: Timestamp) -> Bounds
    ensures is { result ≡ bounds_around at.nanosecond }
    ensures instants { IsInstant result.from × IsInstant result.at × IsInstant result.to }
    ensures order { (result.from ≤ℤ result.at) × (result.at <ℤ result.to) }
{
    let at = asked_second(at);
    Bounds {
        from: first_of(at),
        at,
        to: end_of(at),
    }
}

// The greatest stretch of one state around a second, cut at the bounds.
fn state_of<S: CivilSeconds, C: CivilSeconds, R: Rule>(
    windows: &Windows<'_, S, C, R>,
    bounds: Bounds,
) -> Stretch<bool>
    requires instants { IsInstant bounds.from × IsInstant bounds.at × IsInstant bounds.to }
    requires order { (bounds.from ≤ℤ bounds.at) × (bounds.at <ℤ bounds.to) }
    ensures { IsGreatest beq (is_open windows.now) bounds.from bounds.at bounds.to result }
{
    let from = instant_at(bounds.from);
    let to = instant_at(bounds.to);
    windows.state_at(from, instant_at(bounds.at), to).unwrap()
}

// Appends since when, with ` or earlier` if the state isn't followed further back.
fn push_since(line: &mut Line, zone: &TimeZone<'_>, bounds: Bounds, second: i64)
    requires instant { IsInstant second }
    requires room { array_vec_len line.old + 41 ≤ 128 }
    ensures items { line.new.items
        ≡ line.old.items ++ since_text (plain_zone zone.now) bounds second }
    ensures len { array_vec_len line.new ≤ array_vec_len line.old + 41 }
{
    push_instant(line, second, zone);
    if second == bounds.from {
        push_bytes(line, b" or earlier");
    }
}

// Appends until when, with ` or later` if the state isn't followed further.
fn push_until(line: &mut Line, zone: &TimeZone<'_>, bounds: Bounds, second: i64)
    requires instant { IsInstant second }
    requires room { array_vec_len line.old + 39 ≤ 128 }
    ensures items { line.new.items
        ≡ line.old.items ++ until_text (plain_zone zone.now) bounds second }
    ensures len { array_vec_len line.new ≤ array_vec_len line.old + 39 }
{
    push_instant(line, second, zone);
    if second == bounds.to {
        push_bytes(line, b" or later");
    }
}

fn state_word(is_open: bool) -> &'static [u8]
    ensures { result.now ≡ state_word is_open }
{
    if is_open { b"open" } else { b"closed" }
}

fn text_line(zone: &TimeZone<'_>, bounds: Bounds, state: &Stretch<bool>) -> Line
    requires { IsInstant state.now.first × IsInstant state.now.end }
    ensures { result.items ≡ text_line (plain_zone zone.now) bounds state.now }
{
    let mut line = Line::new();
    push_bytes(&mut line, state_word(state.value));
    push_bytes(&mut line, b" since ");
    push_since(&mut line, zone, bounds, state.first);
    push_bytes(&mut line, b" until ");
    push_until(&mut line, zone, bounds, state.end);
    push_bytes(&mut line, b"\n");
    line
}

// Appends an instant as JSON, or null if it is the bound.
fn push_edge(line: &mut Line, zone: &TimeZone<'_>, bound: i64, second: i64)
    requires instant { IsInstant second }
    requires room { array_vec_len line.old + 32 ≤ 128 }
    ensures items { line.new.items
        ≡ line.old.items ++ edge_text (plain_zone zone.now) bound second }
    ensures len { array_vec_len line.new ≤ array_vec_len line.old + 32 }
{
    if second == bound {
        push_bytes(line, b"null");
        return;
    }
    push_bytes(line, b"\"");
    push_instant(line, second, zone);
    push_bytes(line, b"\"");
}

fn bool_word(is_open: bool) -> &'static [u8]
    ensures { result.now ≡ bool_word is_open }
{
    if is_open { b"true" } else { b"false" }
}

fn json_line(zone: &TimeZone<'_>, bounds: Bounds, state: &Stretch<bool>) -> Line
    requires { IsInstant state.now.first × IsInstant state.now.end }
    ensures { result.items ≡ json_line (plain_zone zone.now) bounds state.now }
{
    let mut object = Line::new();
    push_bytes(&mut object, b"{\"open\":");
    push_bytes(&mut object, bool_word(state.value));
    push_bytes(&mut object, b",\"since\":");
    push_edge(&mut object, zone, bounds.from, state.first);
    push_bytes(&mut object, b",\"until\":");
    push_edge(&mut object, zone, bounds.to, state.end);
    push_bytes(&mut object, b"}\n");
    object
}

// The line of a state in the form `form`, with its line feed.
fn line_of(form: Form, zone: &TimeZone<'_>, bounds: Bounds, state: &Stretch<bool>) -> Line
    requires { IsInstant state.now.first × IsInstant state.now.end }
    ensures { result.items ≡ line form (plain_zone zone.now) bounds state.now }
{
    match form {
        Form::Text => text_line(zone, bounds, state),
        Form::Json => json_line(zone, bounds, state),
    }
}

fn status_of(is_open: bool) -> Status
    ensures status { result ≡ state_status is_open }
    ensures done { is_write_failure result ≡ false }
{
    if is_open { Status::Done } else { Status::No }
}

/// Writes whether a window is open at `at`, since when and until when, and flushes. The state is
/// followed 400 days back and ahead. The status is `No` if none is open. No call of the writer may
/// have failed before.
pub(crate) fn say<S: CivilSeconds, C: CivilSeconds, R: Rule, W: Watchable>(
    windows: &Windows<'_, S, C, R>,
    at: Timestamp,
    zone: &TimeZone<'_>,
    form: Form,
    out: &mut Watched<W>,
) -> Status
    requires { has_failed out.old ≡ false }
    ensures says { SaysState form (plain_zone zone.now) windows.now at.nanosecond
        (W.contents (writer_of out.old)) (W.contents (writer_of out.new)) result }
    ensures mark { has_failed out.new ≡ is_write_failure result }
    ensures calls { AreWritesFlushed W.writes W.flushes
        (writer_of out.old) (has_failed out.old) (writer_of out.new) (has_failed out.new) }
{
    let bounds = bounds_around(at);
    let state = state_of(windows, bounds);
    let line = line_of(form, zone, bounds, &state);
    send_bytes(line.as_slice(), status_of(state.value), out)
}
