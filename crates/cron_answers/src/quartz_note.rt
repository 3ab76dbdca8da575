//! The notice that Quartz fires at other instants than those listed.

ghost use Rattle.std.specs.Prelude.{◌≡◌, ◌||◌, false};
ghost use Rattle.jiff.specs.Words.{plain_zone};
ghost use Rattle.cron_dues.specs.Due as dues;
ghost use Rattle.cron_moments.specs.Readings as moments;
ghost use Rattle.cron_writer.specs.Watching.{has_failed};
ghost use Rattle.cron_plans.specs.Tables.{has_table};
ghost use Rattle.cron_answers.specs.Expressions.{changes_by, matches_of};
ghost use Rattle.cron_answers.specs.Fires.{dues_of, first_of, moments_of};
ghost use Rattle.cron_answers.specs.QuartzNotes.{has_other, is_noted, is_quartz_fire, lists_other, IsNoted};
ghost use Rattle.cron_replies.specs.Statuses.{is_write_failure, Reports};

use crate::answer::Request;
use crate::back::{dues_before, moments_before};
use crate::expression::Expression;
use crate::fires::{Asked, is_none_wanted, one_less};
use crate::left::Left;
use crate::pair::send_text;
use crate::row::Told;
use cron_fires::{ClockChanges, Dues, Fires};
use cron_moments::moment::instant_of;
use cron_moments::readings::readings_of;
use cron_plans::table::Table;
use cron_replies::status::Status;
use cron_writer::watchable::Watchable;
use cron_writer::watched::Watched;
use jiff::tz::TimeZone;

/// The line of the notice that Quartz fires at other instants.
const NOTICE: &str =
    "note: Quartz fires differently here: in a fold only at the second time, in a gap not at all\n";

// Whether Quartz fires at `fire` too: it is the last instant when the clock shows the civil second
// that matches.
fn is_quartz_fire<F: Told>(fire: &F, zone: &TimeZone<'_>) -> bool
    ensures { result
        ≡ is_quartz_fire (plain_zone zone.now) (F.civil fire.now) (F.second fire.now) }
{
    let Some(found) = readings_of(zone, fire.civil()) else {
        return false;
    };
    let last = match found.second {
        Some(later) => later,
        None => found.first,
    };
    instant_of(&last) == fire.second()
}

// Whether Quartz doesn't fire at one of the first `most` fires that are left, or of all if `most`
// is `None`.
fn has_other<F: Told, L: Left<F>>(left: &mut L, most: Option<u64>, zone: &TimeZone<'_>) -> bool
    ensures { result ≡ has_other F.civil F.second (plain_zone zone.now)
        (first_of most (L.left left.old)) }
{
    let mut more = most;
    'fires: while !is_none_wanted(more) {
        let Some(fire) = left.take_first() else {
            return false;
        };
        if !is_quartz_fire(&fire, zone) {
            return true;
        }
        more = one_less(more);
    }
    false
}

// Whether Quartz doesn't fire at one of the requested times when the clock shows a match.
fn has_other_moment(table: &Table<'_>, asked: &Asked, zone: &TimeZone<'_>) -> bool
    ensures { result ≡ has_other (λ r. r.second) moments.instant (plain_zone zone.now)
        (moments_of asked.now (has_table table.now) (plain_zone zone.now)) }
{
    match *asked {
        Asked::Next(start, count) => {
            let mut run = Fires::after(table, start, zone);
            has_other(&mut run, Some(count), zone)
        }
        Asked::Back(end, count) => {
            let mut run = moments_before(table, end, zone);
            has_other(&mut run, Some(count), zone)
        }
        Asked::Between(start, end) => {
            let mut run = Fires::between(table, start, end, zone);
            has_other(&mut run, None, zone)
        }
    }
}

// Whether Quartz doesn't fire at one of the requested matches, each once.
fn has_other_due(table: &Table<'_>, asked: &Asked, zone: &TimeZone<'_>) -> bool
    ensures { result ≡ has_other (λ d. d.second) dues.instant (plain_zone zone.now)
        (dues_of asked.now (has_table table.now) (plain_zone zone.now)) }
{
    match *asked {
        Asked::Next(start, count) => {
            let mut run = Dues::after(table, start, zone);
            has_other(&mut run, Some(count), zone)
        }
        Asked::Back(end, count) => {
            let mut run = dues_before(table, end, zone);
            has_other(&mut run, Some(count), zone)
        }
        Asked::Between(start, end) => {
            let mut run = Dues::between(table, start, end, zone);
            has_other(&mut run, None, zone)
        }
    }
}

/// Whether Quartz doesn't fire at one of the requested fires by the rule `changes`.
pub(crate) fn lists_other(
    table: &Table<'_>,
    changes: ClockChanges,
    asked: &Asked,
    zone: &TimeZone<'_>,
) -> bool
    ensures { result ≡ lists_other changes asked.now (has_table table.now) (plain_zone zone.now) }
{
    match changes {
        ClockChanges::AsShown => has_other_moment(table, asked, zone),
        ClockChanges::Once => has_other_due(table, asked, zone),
    }
}

/// Writes the notice if an expression of Quartz was listed completely, and Quartz doesn't fire at
/// one of the listed fires. No call of the writer may have failed before.
pub(crate) fn note<C: Watchable>(
    request: &Request<'_>,
    expression: &Expression,
    asked: &Asked,
    zone: &TimeZone<'_>,
    listed: Status,
    complaints: &mut Watched<C>,
) -> Status
    requires { has_failed complaints.old ≡ false }
    ensures notes { IsNoted
        (is_noted request.now expression.now asked.now (plain_zone zone.now)) listed
        (Reports C.contents C.writes C.flushes) complaints.old result complaints.new }
    ensures mark { (is_write_failure listed || has_failed complaints.new)
        ≡ is_write_failure result }
{
    if listed != Status::Done {
        return listed;
    }
    if !request.quartz {
        return listed;
    }
    let table = expression.table(&request.plan);
    let changes = expression.changes(request.changes);
    if lists_other(&table, changes, asked, zone) {
        return send_text(NOTICE, Status::Done, complaints);
    }
    listed
}
