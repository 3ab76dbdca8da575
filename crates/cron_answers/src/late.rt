//! Answers the subcommand `late`: says whether a fire was missed since the last run.

ghost use Rattle.std.specs.Prelude.{◌≡◌, ◌||◌, false};
ghost use Rattle.cron_writer.specs.Watching.{has_failed};
ghost use Rattle.cron_answers.specs.Answers.{given};
ghost use Rattle.cron_answers.specs.LateAnswers.{AnswersLate};
ghost use Rattle.cron_replies.specs.Statuses.{is_write_failure, Reports};

use crate::instant::instant_of;
use crate::lateness::{LastRun, say_whether};
use crate::subject::subject_of;
use crate::trouble::{Trouble, tell};
use cron_fires::ClockChanges;
use cron_plans::plan::Plan;
use cron_replies::form::Form;
use cron_replies::status::Status;
use cron_writer::watchable::Watchable;
use cron_writer::watched::Watched;
use cron_zones::files::ZoneFiles;
use cron_zones::open::Places;
use jiff::Timestamp;
use std::alloc::Global;

/// The arguments of `late`, not read yet.
#[derive(Clone, Copy)]
pub struct Request<'a> {
    /// The argument EXPRESSION.
    pub expression: &'a str,
    /// Whether EXPRESSION is an expression of Quartz.
    pub quartz: bool,
    /// The value of `--zone`.
    pub zone: &'a str,
    /// The value of `--last`: the instant of the last run.
    pub last: &'a str,
    /// The value of `--grace`: how many seconds after a fire its run may be noted.
    pub grace: u32,
    /// The rule at clock changes that was chosen. `None` is the expression's own.
    pub changes: Option<ClockChanges>,
    /// What is left out of the fires, and where they are moved.
    pub plan: Option<Plan<'a>>,
    /// How the answer is written.
    pub form: Form,
}

/// Answers a request: writes a sentence on whether a fire was missed to `out`, and what is wrong to
/// `complaints`. The status is `No` if one was. No call of the writers may have failed before.
pub fn answer<F: ZoneFiles, W: Watchable, C: Watchable>(
    alloc: Global,
    request: &Request<'_>,
    now: Timestamp,
    places: &Places<'_>,
    files: &mut F,
    out: &mut Watched<W>,
    complaints: &mut Watched<C>,
) -> Status
    requires out { has_failed out.old ≡ false }
    requires complaints { has_failed complaints.old ≡ false }
    ensures answers { AnswersLate (given F.reads places.now now.nanosecond) request.now
        (Reports W.contents W.writes W.flushes) (Reports C.contents C.writes C.flushes)
        (files.old, out.old, complaints.old) result (files.new, out.new, complaints.new) }
    ensures mark { (has_failed out.new || has_failed complaints.new) ≡ is_write_failure result }
{
    let (quartz, text) = (request.quartz, request.expression);
    let subject = match subject_of(alloc, quartz, text, request.zone, places, files) {
        Ok(subject) => subject,
        Err(trouble) => return tell(alloc, &trouble, complaints),
    };
    let zone = subject.zone.time_zone();
    let Some(instant) = instant_of(request.last, &zone, now) else {
        return tell(alloc, &Trouble::Instant(request.last), complaints);
    };
    let last = LastRun {
        instant,
        grace: request.grace,
    };
    let table = subject.expression.table(&request.plan);
    let changes = subject.expression.changes(request.changes);
    say_whether(&table, changes, &last, now, &zone, request.form, out)
}
