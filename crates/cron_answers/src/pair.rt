//! Two expressions, and lines that are written about them.

ghost use Rattle.std.specs.Prelude.{◌≡◌, false, MatchResult};
ghost use Rattle.cron_walk_listing.specs.Output.{complaint};
ghost use Rattle.cron_moments.specs.Civil.{civil};
ghost use Rattle.cron_unions.specs.Unions.{matches_any};
ghost use Rattle.cron_writer.specs.Calls.{AreWritesFlushed};
ghost use Rattle.cron_writer.specs.Watching.{has_failed, writer_of};
ghost use Rattle.cron_answers.specs.Pairs.{AreRead, IsNoPair, no_memory};
ghost use Rattle.cron_replies.specs.Statuses.{Ends, is_write_failure};
ghost use Rattle.cron_replies.specs.declared.status.Status.TheVariants.{Unreadable};

use crate::expression::{Expression, read_as};
use crate::trouble::Trouble;
use cron_moments::civil::civil_of;
use cron_replies::form::Form;
use cron_replies::sending::send_bytes;
use cron_replies::status::Status;
use cron_time::matching::includes;
use cron_units::fields::ScheduleFields;
use cron_writer::watchable::Watchable;
use cron_writer::watched::Watched;

/// Two expressions as arguments, not read yet.
#[derive(Clone, Copy)]
pub struct Pair<'a> {
    /// Whether both are expressions of Quartz.
    pub quartz: bool,
    /// The argument EXPRESSION.
    pub first: &'a str,
    /// The argument OTHER.
    pub second: &'a str,
    /// How the answer is written.
    pub form: Form,
}

/// Two expressions, already read.
#[derive(Drop)]
pub(crate) struct Both {
    pub(crate) first: Expression,
    pub(crate) second: Expression,
}

/// Reads both expressions. `Err` has the first text that is none.
pub(crate) fn read_both<'a>(pair: &Pair<'a>) -> Result<Both, Trouble<'a>>
    ensures { MatchResult result (AreRead pair.now) (IsNoPair pair.now) }
{
    let first = match read_as(pair.quartz, pair.first) {
        Ok(first) => first,
        Err(refusal) => return Err(Trouble::Expression(pair.first, refusal)),
    };
    match read_as(pair.quartz, pair.second) {
        Ok(second) => Ok(Both { first, second }),
        Err(refusal) => Err(Trouble::Expression(pair.second, refusal)),
    }
}

/// Whether one of the schedules matches a civil second.
pub(crate) fn matches_second(union: &[ScheduleFields], second: u32) -> bool
    ensures { result ≡ matches_any union.now (civil second) }
{
    let date_time = civil_of(second);
    union.iter().any(|fields| includes(fields, date_time))
}

/// Writes a text whole and flushes. Returns `done`, or `WriteFailed` if a call fails. No call of
/// the writer may have failed before.
pub(crate) fn send_text<W: Watchable>(text: &str, done: Status, out: &mut Watched<W>) -> Status
    requires out { has_failed out.old ≡ false }
    requires done { is_write_failure done ≡ false }
    ensures ends { Ends done text.now
        (W.contents (writer_of out.old)) (W.contents (writer_of out.new)) result }
    ensures mark { has_failed out.new ≡ is_write_failure result }
    ensures calls { AreWritesFlushed W.writes W.flushes
        (writer_of out.old) (has_failed out.old) (writer_of out.new) (has_failed out.new) }
{
    send_bytes(text.as_bytes(), done, out)
}

/// Writes that memory ran out, and flushes. No call of the writer may have failed before.
pub(crate) fn tell_no_memory<W: Watchable>(out: &mut Watched<W>) -> Status
    requires { has_failed out.old ≡ false }
    ensures ends { Ends Unreadable (complaint no_memory)
        (W.contents (writer_of out.old)) (W.contents (writer_of out.new)) result }
    ensures mark { has_failed out.new ≡ is_write_failure result }
    ensures calls { AreWritesFlushed W.writes W.flushes
        (writer_of out.old) (has_failed out.old) (writer_of out.new) (has_failed out.new) }
{
    send_text("error: out of memory\n", Status::Unreadable, out)
}
