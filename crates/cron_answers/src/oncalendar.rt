//! Answers the subcommand `oncalendar`: writes an expression as systemd's `OnCalendar`.

ghost use Rattle.std.specs.Prelude.{◌≡◌, ◌||◌, false, true, MatchResult};
ghost use Rattle.std.specs.Option.{ForSome, option_map};
ghost use Rattle.cron_walk_listing.specs.Output.{complaint};
ghost use Rattle.cron_oncalendar.specs.Zones.{is_word};
ghost use Rattle.cron_writer.specs.Calls.{AreWritesFlushed};
ghost use Rattle.cron_writer.specs.Watching.{has_failed, writer_of};
ghost use Rattle.cron_answers.specs.Calendars.{AnswersCalendar, IsNoExpression, never_text};
ghost use Rattle.cron_answers.specs.Expressions.{IsReadAs};
ghost use Rattle.cron_replies.specs.Statuses.{Ends, is_write_failure, Reports};
ghost use Rattle.cron_replies.specs.declared.status.Status.TheVariants.{No};

use crate::expression::{Expression, read_as};
use crate::pair::{send_text, tell_no_memory};
use crate::trouble::{Trouble, tell};
use cron_oncalendar::lines::calendar_lines;
use cron_replies::status::Status;
use cron_writer::watchable::Watchable;
use cron_writer::watched::Watched;
use std::alloc::Global;

// Reads an expression. `Err` has why the text is none.
fn read_words(quartz: bool, text: &str) -> Result<Expression, Trouble<'_>>
    ensures { MatchResult result (IsReadAs quartz text.now) (IsNoExpression quartz text.now) }
{
    match read_as(quartz, text) {
        Ok(expression) => Ok(expression),
        Err(refusal) => Err(Trouble::Expression(text, refusal)),
    }
}

// Writes that an expression never fires, and flushes. No call of the writer may have failed before.
fn tell_never<W: Watchable>(out: &mut Watched<W>) -> Status
    requires { has_failed out.old ≡ false }
    ensures ends { Ends No (complaint never_text)
        (W.contents (writer_of out.old)) (W.contents (writer_of out.new)) result }
    ensures mark { has_failed out.new ≡ is_write_failure result }
    ensures calls { AreWritesFlushed W.writes W.flushes
        (writer_of out.old) (has_failed out.old) (writer_of out.new) (has_failed out.new) }
{
    let never = "error: it never fires, and OnCalendar has no line for that\n";
    send_text(never, Status::No, out)
}

/// Writes an expression as lines of systemd's `OnCalendar`, which match the same civil seconds from
/// 1970 to 2100. It is an expression of Quartz if `quartz`. If `zone` is given, its name ends each
/// line. The status is `No` if the expression never fires, since systemd has no line for that. No
/// call of the writers may have failed before.
pub fn write_calendar<W: Watchable, C: Watchable>(
    alloc: Global,
    quartz: bool,
    text: &str,
    zone: Option<&str>,
    out: &mut Watched<W>,
    complaints: &mut Watched<C>,
) -> Status
    requires zone { ForSome zone (λ name. is_word name.now ≡ true) }
    requires out { has_failed out.old ≡ false }
    requires complaints { has_failed complaints.old ≡ false }
    ensures answers { AnswersCalendar quartz text.now
        (option_map (λ name. name.now) zone.entry)
        (Reports W.contents W.writes W.flushes) (Reports C.contents C.writes C.flushes)
        (out.old, complaints.old) result (out.new, complaints.new) }
    ensures mark { (has_failed out.new || has_failed complaints.new) ≡ is_write_failure result }
{
    let expression = match read_words(quartz, text) {
        Ok(expression) => expression,
        Err(trouble) => return tell(alloc, &trouble, complaints),
    };
    match calendar_lines(alloc, expression.as_slice(), zone) {
        Ok(Some(lines)) => send_text(lines.as_str(), Status::Done, out),
        Ok(None) => tell_never(complaints),
        Err(_) => tell_no_memory(complaints),
    }
}
