//! Answers the subcommand `due`: lists the fires after the one that a stamp notes, a file that
//! `done` writes.

ghost use Rattle.std.specs.Prelude.{◌≡◌, ◌||◌, false, MatchResult};
ghost use Rattle.cron_writer.specs.Watching.{has_failed};
ghost use Rattle.cron_answers.specs.Answers.{given};
ghost use Rattle.cron_answers.specs.DueAnswers.{AnswersDue, FindsPending, finding_of, or_last};
ghost use Rattle.cron_replies.specs.Statuses.{is_write_failure, Reports};

use crate::noted::{Noted, noted_at};
use crate::notice::{Notice, say};
use crate::pending::{Pending, list_pending};
use crate::subject::subject_of;
use crate::trouble::tell;
use cron_fires::ClockChanges;
use cron_replies::form::Form;
use cron_replies::status::Status;
use cron_writer::watchable::Watchable;
use cron_writer::watched::Watched;
use cron_zones::files::ZoneFiles;
use cron_zones::open::Places;
use jiff::Timestamp;
use std::alloc::Global;

/// The arguments of `due`, not read yet.
#[derive(Clone, Copy)]
pub struct Request<'a> {
    /// The argument STAMP: a path.
    pub stamp: &'a str,
    /// The argument EXPRESSION.
    pub expression: &'a str,
    /// Whether EXPRESSION is an expression of Quartz.
    pub quartz: bool,
    /// The value of `--zone`.
    pub zone: &'a str,
    /// Whether only the last of the fires is listed.
    pub latest: bool,
    /// The rule at clock changes that was chosen. `None` is the expression's own.
    pub changes: Option<ClockChanges>,
    /// How fires are written.
    pub form: Form,
}

/// What is listed, according to what the stamp notes.
#[derive(Clone, Copy)]
pub enum Finding {
    /// These pending fires are listed.
    List(Pending),
    /// The last fire is listed, and a notice says why.
    Anew(Notice),
    /// No fire is listed, and a notice says why.
    Refuse(Notice),
}

fn finding_of(now: Timestamp, latest: bool, noted: &Noted) -> Finding
    ensures { result ≡ finding_of now.nanosecond latest noted.now }
{
    match noted {
        Noted::Fire(fire) if now < fire.timestamp() => Finding::Anew(Notice::Ahead),
        Noted::Fire(fire) if latest => Finding::List(Pending::LatestPast(*fire)),
        Noted::Fire(fire) => Finding::List(Pending::Past(*fire)),
        Noted::Nothing => Finding::Anew(Notice::NoStamp),
        Noted::Broken => Finding::Refuse(Notice::Broken),
        Noted::Unread => Finding::Refuse(Notice::Unread),
    }
}

// What is listed after a notice that was written with the status `said`: the last fire if that is
// `Done`. Else the subcommand ends with that status.
fn or_last(said: Status) -> Result<Pending, Status>
    ensures { result ≡ or_last said }
{
    match said {
        Status::Done => Ok(Pending::Last),
        failed => Err(failed),
    }
}

// The fires to list according to the stamp. `Err` has the status of the subcommand, which ends
// then.
fn pending_of<F: ZoneFiles, C: Watchable>(
    alloc: Global,
    request: &Request<'_>,
    now: Timestamp,
    files: &mut F,
    complaints: &mut Watched<C>,
) -> Result<Pending, Status>
    requires { has_failed complaints.old ≡ false }
    ensures finds { FindsPending F.reads now.nanosecond request.now
        (Reports C.contents C.writes C.flushes)
        (files.old, complaints.old) result (files.new, complaints.new) }
    ensures mark { MatchResult result (λ _. has_failed complaints.new ≡ false)
        (λ ended. has_failed complaints.new ≡ is_write_failure ended) }
{
    let noted = noted_at(alloc, request.stamp, files);
    match finding_of(now, request.latest, &noted) {
        Finding::List(pending) => Ok(pending),
        Finding::Anew(notice) => or_last(say(alloc, notice, request.stamp, complaints)),
        Finding::Refuse(notice) => Err(say(alloc, notice, request.stamp, complaints)),
    }
}

/// Answers a request: writes the fires to `out`, and notices on the stamp and what is wrong to
/// `complaints`. The status is `No` if no fire is pending. The stamp is read and never written. No
/// call of the writers may have failed before.
pub fn answer<F: ZoneFiles, W: Watchable, C: Watchable>(
    alloc: Global,
    request: &Request<'_>,
    now: Timestamp,
    places: &Places<'_>,
    files: &mut F,
    out: &mut Watched<W>,
    complaints: &mut Watched<C>,
) -> Status
    requires out { has_failed out.old ≡ false }
    requires complaints { has_failed complaints.old ≡ false }
    ensures answers { AnswersDue (given F.reads places.now now.nanosecond) request.now
        (Reports W.contents W.writes W.flushes) (Reports C.contents C.writes C.flushes)
        (files.old, out.old, complaints.old) result (files.new, out.new, complaints.new) }
    ensures mark { (has_failed out.new || has_failed complaints.new) ≡ is_write_failure result }
{
    let (quartz, text) = (request.quartz, request.expression);
    let subject = match subject_of(alloc, quartz, text, request.zone, places, files) {
        Ok(subject) => subject,
        Err(trouble) => return tell(alloc, &trouble, complaints),
    };
    let zone = subject.zone.time_zone();
    match pending_of(alloc, request, now, files, complaints) {
        Ok(pending) => list_pending(
            &subject.expression,
            request.changes,
            &pending,
            now,
            &zone,
            request.form,
            out,
        ),
        Err(status) => status,
    }
}
