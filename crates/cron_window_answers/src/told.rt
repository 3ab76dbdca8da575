//! Questions about windows, and their answers by either rule at clock changes.

ghost use Rattle.std.specs.Prelude.{◌≡◌, false};
ghost use Rattle.jiff.specs.Words.{plain_zone};
ghost use Rattle.cron_stretches.specs.Fires.{instants};
ghost use Rattle.cron_writer.specs.Calls.{AreWritesFlushed};
ghost use Rattle.cron_writer.specs.Watching.{has_failed, writer_of};
ghost use Rattle.cron_replies.specs.Statuses.{is_write_failure};
ghost use Rattle.cron_window_answers.specs.Windows.{Tells, windows_by, windows_of};

use crate::listing::list;
use crate::state::say;
use crate::words::{Closing, Sought};
use cron_fires::{AsShown, CivilSeconds, ClockChanges, Once, Rule, Union};
use cron_replies::form::Form;
use cron_replies::status::Status;
use cron_windows::windows::Windows;
use cron_writer::watchable::Watchable;
use cron_writer::watched::Watched;
use jiff::Timestamp;
use jiff::tz::TimeZone;

/// What is asked about windows.
#[derive(Clone, Copy)]
pub(crate) enum Question {
    /// Which there are of the seconds from the first instant on and before the second.
    Between(Timestamp, Timestamp),
    /// Whether one is open at the instant.
    At(Timestamp),
}

// Answers a question about windows.
fn tell<S: CivilSeconds, C: CivilSeconds, R: Rule, W: Watchable>(
    windows: &Windows<'_, S, C, R>,
    question: &Question,
    zone: &TimeZone<'_>,
    form: Form,
    out: &mut Watched<W>,
) -> Status
    requires { has_failed out.old ≡ false }
    ensures tells { Tells question.now form (plain_zone zone.now) windows.now
        (W.contents (writer_of out.old)) (W.contents (writer_of out.new)) result }
    ensures mark { has_failed out.new ≡ is_write_failure result }
    ensures calls { AreWritesFlushed W.writes W.flushes
        (writer_of out.old) (has_failed out.old) (writer_of out.new) (has_failed out.new) }
{
    match *question {
        Question::Between(from, to) => list(windows, from, to, zone, form, out),
        Question::At(at) => say(windows, at, zone, form, out),
    }
}

// Answers a question about the windows that open at the fires of a set. Both sets fire by the rule
// `R`.
fn tell_by<S: CivilSeconds, R: Rule, W: Watchable>(
    opens: S,
    closing: &Closing,
    clock: &R::Clock,
    question: &Question,
    zone: &TimeZone<'_>,
    form: Form,
    out: &mut Watched<W>,
) -> Status
    requires { has_failed out.old ≡ false }
    ensures tells { Tells question.now form (plain_zone zone.now)
        (windows_by (λ s. instants R.at (R.fires s clock.now)) (S.has opens) closing.now)
        (W.contents (writer_of out.old)) (W.contents (writer_of out.new)) result }
    ensures mark { has_failed out.new ≡ is_write_failure result }
    ensures calls { AreWritesFlushed W.writes W.flushes
        (writer_of out.old) (has_failed out.old) (writer_of out.new) (has_failed out.new) }
{
    match closing {
        Closing::At(expression) => {
            let closes = Union {
                schedules: expression.as_slice(),
            };
            let windows = Windows::<_, _, R>::closed_by(opens, closes, clock);
            tell(&windows, question, zone, form, out)
        }
        Closing::After(seconds) => {
            let windows = Windows::<_, _, R>::lasting(opens, seconds.get(), clock).unwrap();
            tell(&windows, question, zone, form, out)
        }
    }
}

/// Answers a question about windows, in a zone. Both expressions fire by the rule `chosen`, or by
/// the opening expression's own if that is `None`. No call of the writer may have failed before.
pub(crate) fn tell_of<W: Watchable>(
    sought: &Sought<'_>,
    chosen: Option<ClockChanges>,
    question: &Question,
    zone: &TimeZone<'_>,
    form: Form,
    out: &mut Watched<W>,
) -> Status
    requires { has_failed out.old ≡ false }
    ensures tells { Tells question.now form (plain_zone zone.now)
        (windows_of chosen sought.now.subject.expression sought.now.closing (plain_zone zone.now))
        (W.contents (writer_of out.old)) (W.contents (writer_of out.new)) result }
    ensures mark { has_failed out.new ≡ is_write_failure result }
    ensures calls { AreWritesFlushed W.writes W.flushes
        (writer_of out.old) (has_failed out.old) (writer_of out.new) (has_failed out.new) }
{
    let expression = &sought.subject.expression;
    let opens = Union {
        schedules: expression.as_slice(),
    };
    let closing = &sought.closing;
    let clock = *zone;
    match expression.changes(chosen) {
        ClockChanges::AsShown => {
            tell_by::<_, AsShown<TimeZone<'_>>, W>(
                opens, closing, &clock, question, zone, form, out,
            )
        }
        ClockChanges::Once => {
            tell_by::<_, Once<TimeZone<'_>>, W>(opens, closing, &clock, question, zone, form, out)
        }
    }
}
