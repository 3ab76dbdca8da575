//! The list of the requested fires, in the form that is wanted.

ghost use Rattle.std.specs.Prelude.{◌≡◌, IfErr, IfOk, false};
ghost use Rattle.jiff.specs.Words.{plain_zone};
ghost use Rattle.cron_writer.specs.Watching.{has_failed};
ghost use Rattle.cron_answers.specs.Listings.{IsFormatTrouble, IsTaken, IsTriedBy, IsUnlisted, ListsAs, is_plain};
ghost use Rattle.cron_replies.specs.Statuses.{Reports};

use crate::answer::Request;
use crate::expression::Expression;
use crate::fires::{Asked, list};
use crate::timed::lines_by;
use crate::trouble::Trouble;
use cron_looks::{Times, is_out_of_memory, try_format};
use cron_replies::sending::send_bytes;
use cron_replies::status::Status;
use cron_writer::watchable::Watchable;
use cron_writer::watched::Watched;
use jiff::tz::TimeZone;
use jiff_core::Error;
use std::alloc::Global;

// Why times can't be written, after this error: the format is wrong, or memory ran out.
fn trouble_of<'a>(times: &Times<'a>, error: &Error) -> Trouble<'a>
    ensures { IsFormatTrouble times.now (λ why. why ≡ error.now) result }
{
    if is_out_of_memory(error) {
        return Trouble::NoMemory;
    }
    match *times {
        Times::Format(format) => Trouble::Format(format),
        Times::Plain | Times::Shown(_) => Trouble::NoMemory,
    }
}

// Tries the format of times, if they have one.
fn try_times<'a>(alloc: Global, times: &Times<'a>) -> Result<(), Trouble<'a>>
    ensures ok { IfOk result (λ _. IsTaken times.now) }
    ensures err { IfErr result (IsFormatTrouble times.now (IsTriedBy times.now)) }
{
    let Times::Format(format) = times else {
        return Ok(());
    };
    let Err(error) = try_format(alloc, *format) else {
        return Ok(());
    };
    Err(trouble_of(times, &error))
}

// Writes the lines of the requested fires, whose times aren't plain. On an error nothing is written.
fn list_lines<'a, W: Watchable>(
    alloc: Global,
    request: &Request<'a>,
    expression: &Expression,
    asked: &Asked,
    zone: &TimeZone<'_>,
    out: &mut Watched<W>,
) -> Result<Status, Trouble<'a>>
    requires fresh { has_failed out.old ≡ false }
    requires timed { is_plain request.now.times ≡ false }
    ensures ok { IfOk result (λ status. Reports W.contents W.writes W.flushes
        (ListsAs request.now expression.now asked.now (plain_zone zone.now))
        out.old status out.new) }
    ensures err { IfErr result (λ trouble.
        IsUnlisted request.now expression.now asked.now (plain_zone zone.now) trouble
        × (out.new ≡ out.old)) }
{
    try_times(alloc, &request.times)?;
    let changes = expression.changes(request.changes);
    let table = expression.table(&request.plan);
    match lines_by(alloc, &table, changes, asked, zone, &request.times) {
        Ok(lines) => Ok(send_bytes(lines.as_slice(), Status::Done, out)),
        Err(error) => Err(trouble_of(&request.times, &error)),
    }
}

/// Writes the requested fires in the form that is wanted, and flushes. On an error nothing is
/// written. No call of the writer may have failed before.
pub(crate) fn list_fires<'a, W: Watchable>(
    alloc: Global,
    request: &Request<'a>,
    expression: &Expression,
    asked: &Asked,
    zone: &TimeZone<'_>,
    out: &mut Watched<W>,
) -> Result<Status, Trouble<'a>>
    requires { has_failed out.old ≡ false }
    ensures ok { IfOk result (λ status. Reports W.contents W.writes W.flushes
        (ListsAs request.now expression.now asked.now (plain_zone zone.now))
        out.old status out.new) }
    ensures err { IfErr result (λ trouble.
        IsUnlisted request.now expression.now asked.now (plain_zone zone.now) trouble
        × (out.new ≡ out.old)) }
{
    match request.times {
        Times::Plain => {
            let table = expression.table(&request.plan);
            let changes = expression.changes(request.changes);
            Ok(list(&table, changes, asked, zone, request.form, out))
        }
        Times::Shown(_) | Times::Format(_) => {
            list_lines(alloc, request, expression, asked, zone, out)
        }
    }
}
