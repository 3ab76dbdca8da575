//! Answers the subcommand `explain`: says in words when an expression fires, and lists fires.

ghost use Rattle.std.specs.Prelude.{◌≡◌, ◌||◌, ◌++◌, ℕ, List, Option, IfOk, false};
ghost use Rattle.std.specs.String.{string_bytes};
ghost use Rattle.jiff.specs.Words.{plain_zone};
ghost use Rattle.cron_writer.specs.Calls.{AreWrites, AreWritesFlushed};
ghost use Rattle.cron_writer.specs.Watching.{has_failed, writer_of, IsSent};
ghost use Rattle.cron_plans.specs.Tables.{has_table};
ghost use Rattle.cron_answers.specs.Answers.{given};
ghost use Rattle.cron_answers.specs.Explanations.{AnswersExplain, IsYearAfter, start_of};
ghost use Rattle.cron_answers.specs.Fires.{rows_by};
ghost use Rattle.cron_answers.specs.Inner.Explanations.{AreTexts};
ghost use Rattle.cron_replies.specs.Statuses.{Ends, is_write_failure, Reports};
ghost use Rattle.cron_replies.specs.declared.status.Status.TheVariants.{Done};

use crate::answer::{Request, asked_of};
use crate::expression::Expression;
use crate::fires::{Asked, send_fires};
use crate::pair::tell_no_memory;
use crate::report::{head_of, tally_text};
use crate::tally::count_fires;
use crate::trouble::tell;
use crate::whole::whole_subject_of;
use cron_fires::ClockChanges;
use cron_plans::table::Table;
use cron_replies::form::Form;
use cron_replies::status::{Status, finish};
use cron_writer::watchable::Watchable;
use cron_writer::watched::{Watched, send};
use cron_zones::files::ZoneFiles;
use cron_zones::open::Places;
use jiff::Timestamp;
use jiff::tz::TimeZone;
use std::alloc::{AllocError, Global};

/// The nanoseconds of 365 days.
const YEAR: i128 = 31_536_000_000_000_000;

/// The texts before and after the rows of fires.
#[derive(Drop)]
pub(crate) struct Texts {
    head: String,
    tail: String,
}

fn start_of(asked: &Asked) -> Timestamp
    ensures { result.nanosecond ≡ start_of asked.now }
{
    match *asked {
        Asked::Next(start, _) => start,
        Asked::Between(start, _) => start,
        Asked::Back(start, _) => start,
    }
}

// The instant 365 days after `start`, or the last instant of all if that is earlier.
fn year_after(start: Timestamp) -> Timestamp
    ensures { IsYearAfter start.nanosecond result.nanosecond }
{
    match Timestamp::from_nanosecond(start.as_nanosecond() + YEAR) {
        Ok(end) => end,
        Err(_) => Timestamp::MAX,
    }
}

// The texts before and after the rows of fires. The first is the sentence of the expression, with
// its warnings and the lines of its plan. The other is the number of fires in 365 days, with the
// waits between them.
fn texts_of(
    alloc: Global,
    request: &Request<'_>,
    expression: &Expression,
    table: &Table<'_>,
    asked: &Asked,
    zone: &TimeZone<'_>,
) -> Result<Texts, AllocError>
    ensures { IfOk result (λ texts.
        AreTexts request.now expression.now (has_table table.now)
        (plain_zone zone.now) asked.now texts) }
{
    let (form, lines) = (request.form, request.plan_lines);
    let head = head_of(alloc, form, request.expression, expression, lines)?;
    let start = start_of(asked);
    let end = year_after(start);
    let changes = expression.changes(request.changes);
    let tally = count_fires(table, changes, start, end, zone);
    let tail = tally_text(alloc, form, &tally)?;
    Ok(Texts { head, tail })
}

// Writes the rows of the fires, or nothing if a call of the writer has failed before.
fn send_more<W: Watchable>(
    table: &Table<'_>,
    changes: ClockChanges,
    asked: &Asked,
    zone: &TimeZone<'_>,
    form: Form,
    out: &mut Watched<W>,
)
    ensures sent { (origin : Option (List ℕ)) (before : List ℕ)
        → IsSent origin (W.contents (writer_of out.old)) (has_failed out.old) before
        → IsSent origin (W.contents (writer_of out.new)) (has_failed out.new)
        (before ++ rows_by changes form asked.now (has_table table.now) (plain_zone zone.now)) }
    ensures calls { AreWrites W.writes
        (writer_of out.old) (has_failed out.old) (writer_of out.new) (has_failed out.new) }
{
    if !out.has_failed() {
        send_fires(table, changes, asked, zone, form, out);
    }
}

// Writes the rows of the fires between the two texts, and flushes. No call of the writer may have
// failed before.
fn send_between<W: Watchable>(
    texts: &Texts,
    table: &Table<'_>,
    changes: ClockChanges,
    asked: &Asked,
    zone: &TimeZone<'_>,
    form: Form,
    out: &mut Watched<W>,
) -> Status
    requires { has_failed out.old ≡ false }
    ensures ends { Ends Done
        ((string_bytes texts.now.head
        ++ rows_by changes form asked.now (has_table table.now) (plain_zone zone.now))
        ++ string_bytes texts.now.tail)
        (W.contents (writer_of out.old)) (W.contents (writer_of out.new)) result }
    ensures mark { has_failed out.new ≡ is_write_failure result }
    ensures calls { AreWritesFlushed W.writes W.flushes
        (writer_of out.old) (has_failed out.old) (writer_of out.new) (has_failed out.new) }
{
    send(out, texts.head.as_bytes());
    send_more(table, changes, asked, zone, form, out);
    send(out, texts.tail.as_bytes());
    finish(out, Status::Done)
}

/// Answers a request. EXPRESSION may be a line of a user's crontab, whose command is left out. It
/// writes the sentence of the expression, its warnings if it is a crontab's, the lines of its plan,
/// and the requested fires to `out`. Then come the number of fires in the 365 days from START on, and the shortest and the
/// longest wait between two. What is wrong goes to `complaints`. No call of the writers may have
/// failed before.
pub fn explain<F: ZoneFiles, W: Watchable, C: Watchable>(
    alloc: Global,
    request: &Request<'_>,
    now: Timestamp,
    places: &Places<'_>,
    files: &mut F,
    out: &mut Watched<W>,
    complaints: &mut Watched<C>,
) -> Status
    requires out { has_failed out.old ≡ false }
    requires complaints { has_failed complaints.old ≡ false }
    ensures answers { AnswersExplain (given F.reads places.now now.nanosecond) request.now
        (Reports W.contents W.writes W.flushes) (Reports C.contents C.writes C.flushes)
        (files.old, out.old, complaints.old) result (files.new, out.new, complaints.new) }
    ensures mark { (has_failed out.new || has_failed complaints.new) ≡ is_write_failure result }
{
    let (quartz, text) = (request.quartz, request.expression);
    let subject = match whole_subject_of(alloc, quartz, text, request.zone, places, files) {
        Ok(subject) => subject,
        Err(trouble) => return tell(alloc, &trouble, complaints),
    };
    let zone = subject.zone.time_zone();
    let asked = match asked_of(&request.which, &zone, now) {
        Ok(asked) => asked,
        Err(trouble) => return tell(alloc, &trouble, complaints),
    };
    let expression = &subject.expression;
    let table = expression.table(&request.plan);
    let Ok(texts) = texts_of(alloc, request, expression, &table, &asked, &zone) else {
        return tell_no_memory(complaints);
    };
    let changes = expression.changes(request.changes);
    send_between(&texts, &table, changes, &asked, &zone, request.form, out)
}
