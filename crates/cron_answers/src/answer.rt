//! Answers the subcommands `next` and `between`: lists the fires that their arguments request.

ghost use Rattle.std.specs.Prelude.{◌≡◌, ◌||◌, false, MatchResult};
ghost use Rattle.jiff.specs.Words.{plain_zone};
ghost use Rattle.cron_writer.specs.Watching.{has_failed};
ghost use Rattle.cron_answers.specs.Answers.{given, Answers, IsAsked, IsNotAsked};
ghost use Rattle.cron_replies.specs.Statuses.{is_write_failure, Reports};

use crate::fires::Asked;
use crate::instant::instant_of;
use crate::listing::list_fires;
use crate::quartz_note::note;
use crate::span::{Span, ends_of};
use crate::subject::subject_of;
use crate::trouble::{Trouble, tell};
use cron_fires::ClockChanges;
use cron_looks::Times;
use cron_plans::plan::Plan;
use cron_replies::form::Form;
use cron_replies::status::Status;
use cron_writer::watchable::Watchable;
use cron_writer::watched::Watched;
use cron_zones::files::ZoneFiles;
use cron_zones::open::Places;
use jiff::Timestamp;
use jiff::tz::TimeZone;
use std::alloc::Global;

/// Which fires are requested, as in the arguments: instants are texts that aren't read yet.
#[derive(Clone, Copy)]
pub enum Which<'a> {
    /// The first fires after START: their number, and START.
    Next(u64, &'a str),
    /// The last fires before START: their number, and START.
    Back(u64, &'a str),
    /// The fires of a span.
    Between(Span<'a>),
}

/// The arguments of `next` or `between`, not read yet.
#[derive(Clone, Copy)]
pub struct Request<'a> {
    /// The argument EXPRESSION.
    pub expression: &'a str,
    /// Whether EXPRESSION is an expression of Quartz.
    pub quartz: bool,
    /// The value of `--zone`.
    pub zone: &'a str,
    /// Which fires are listed.
    pub which: Which<'a>,
    /// The rule at clock changes that was chosen. `None` is the expression's own.
    pub changes: Option<ClockChanges>,
    /// What is left out of the fires, and where they are moved.
    pub plan: Option<Plan<'a>>,
    /// The lines that tell of the plan, which `explain` writes after the warnings.
    pub plan_lines: &'a str,
    /// How fires are written.
    pub form: Form,
    /// How the times of fires are written, where each is a line of text. Only `Times::Plain` goes
    /// with `Form::Json`.
    pub times: Times<'a>,
}

/// Reads the instants of `which`. `Err` has the first text that is no instant, or says what is wrong
/// with a span.
pub(crate) fn asked_of<'a>(
    which: &Which<'a>,
    zone: &TimeZone<'_>,
    now: Timestamp,
) -> Result<Asked, Trouble<'a>>
    ensures { MatchResult result
        (IsAsked which.now (plain_zone zone.now) now.nanosecond)
        (IsNotAsked which.now (plain_zone zone.now) now.nanosecond) }
{
    match *which {
        Which::Next(count, start) => match instant_of(start, zone, now) {
            Some(instant) => Ok(Asked::Next(instant, count)),
            None => Err(Trouble::Instant(start)),
        },
        Which::Between(span) => match ends_of(&span, zone, now) {
            Ok(ends) => Ok(Asked::Between(ends.0, ends.1)),
            Err(trouble) => Err(trouble),
        },
        Which::Back(count, start) => match instant_of(start, zone, now) {
            Some(instant) => Ok(Asked::Back(instant, count)),
            None => Err(Trouble::Instant(start)),
        },
    }
}

/// Answers a request: writes the fires to `out`, and what is wrong to `complaints`. A notice also
/// goes to `complaints` if Quartz would fire at other instants than those listed. Zones are
/// searched in `places` and `files`, and at most one file is read. No call of the writers may have
/// failed before.
pub fn answer<F: ZoneFiles, W: Watchable, C: Watchable>(
    alloc: Global,
    request: &Request<'_>,
    now: Timestamp,
    places: &Places<'_>,
    files: &mut F,
    out: &mut Watched<W>,
    complaints: &mut Watched<C>,
) -> Status
    requires out { has_failed out.old ≡ false }
    requires complaints { has_failed complaints.old ≡ false }
    ensures answers { Answers (given F.reads places.now now.nanosecond) request.now
        (Reports W.contents W.writes W.flushes) (Reports C.contents C.writes C.flushes)
        (files.old, out.old, complaints.old) result (files.new, out.new, complaints.new) }
    ensures mark { (has_failed out.new || has_failed complaints.new) ≡ is_write_failure result }
{
    let (quartz, text) = (request.quartz, request.expression);
    let subject = match subject_of(alloc, quartz, text, request.zone, places, files) {
        Ok(subject) => subject,
        Err(trouble) => return tell(alloc, &trouble, complaints),
    };
    let expression = &subject.expression;
    let zone = subject.zone.time_zone();
    match asked_of(&request.which, &zone, now) {
        Ok(asked) => match list_fires(alloc, request, expression, &asked, &zone, out) {
            Ok(listed) => note(request, expression, &asked, &zone, listed, complaints),
            Err(unlisted) => tell(alloc, &unlisted, complaints),
        },
        Err(trouble) => tell(alloc, &trouble, complaints),
    }
}
