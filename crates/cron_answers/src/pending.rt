//! The fires that are pending: they came due, and no stamp notes them as done. A stamp is a file
//! that holds the last fire that was done.

ghost use Rattle.std.specs.Prelude.{◌≡◌, ◌*ℤ◌, ◌≤ℤ◌, pos, false, true};
ghost use Rattle.std.specs.Option.{option_to_list};
ghost use Rattle.jiff.specs.Words.{plain_zone};
ghost use Rattle.cron_dues.specs.Due as dues;
ghost use Rattle.cron_dues.specs.Dues.{is_due_by, is_past};
ghost use Rattle.cron_dues.specs.DueText.{due_text, shown};
ghost use Rattle.cron_dues.specs.FirstDues.{IsLast, IsDue};
ghost use Rattle.cron_instants.specs.Instants.{IsBy, IsLatest, IsItem};
ghost use Rattle.cron_instants.specs.Order as orders;
ghost use Rattle.cron_moments.specs.MomentText.{moment_text};
ghost use Rattle.cron_moments.specs.Readings as moments;
ghost use Rattle.cron_unions.specs.Unions.{any_of};
ghost use Rattle.cron_writer.specs.Calls.{AreWritesFlushed};
ghost use Rattle.cron_writer.specs.Watching.{has_failed, writer_of};
ghost use Rattle.cron_answers.specs.Expressions.{changes_by, schedules_of};
ghost use Rattle.cron_answers.specs.Pendings.{IsHead, ListsFires, ListsPending};
ghost use Rattle.cron_replies.specs.Statuses.{is_write_failure};
ghost use Rattle.cron_fires.specs.declared.changes.ClockChanges.TheVariants.{AsShown, Once};

use crate::expression::Expression;
use crate::fires::send_rows;
use crate::left::Left;
use crate::row::{Told, row_of};
use cron_dues::fire::{DueFire, nominal_second};
use cron_fires::{ClockChanges, Dues, Fires, Union, last_due_by, last_fire_by};
use cron_instants::item::is_earlier;
use cron_moments::moment::{Moment, moment_numbered};
use cron_replies::form::Form;
use cron_replies::status::{Status, finish};
use cron_writer::watchable::Watchable;
use cron_writer::watched::{Watched, send};
use jiff::Timestamp;
use jiff::tz::TimeZone;

/// Which fires are pending.
#[derive(Clone, Copy)]
pub enum Pending {
    /// The last fire up to now, since no fire is noted.
    Last,
    /// All fires after the noted fire.
    Past(DueFire),
    /// The last of the fires after the noted fire.
    LatestPast(DueFire),
}

// What the clock shows at a fire.
fn shown_of(fire: &DueFire) -> Moment
    ensures { result ≡ shown fire.now }
{
    moment_numbered(nominal_second(fire) + fire.seconds_past(), fire.offset())
}

// Lists one fire, or nothing if there is none.
fn list_one<F: Told, W: Watchable>(fire: Option<F>, form: Form, out: &mut Watched<W>) -> Status
    requires { has_failed out.old ≡ false }
    ensures lists { ListsFires form F.text F.second (option_to_list fire)
        (W.contents (writer_of out.old)) (W.contents (writer_of out.new)) result }
    ensures mark { has_failed out.new ≡ is_write_failure result }
    ensures calls { AreWritesFlushed W.writes W.flushes
        (writer_of out.old) (has_failed out.old) (writer_of out.new) (has_failed out.new) }
{
    match &fire {
        Some(fire) => {
            send(out, row_of(form, fire).as_slice());
            finish(out, Status::Done)
        }
        None => finish(out, Status::No),
    }
}

// Lists the fires that are left. `first` is the first of them, or `None` if none is left.
fn list_left<F: Told, L: Left<F>, W: Watchable>(
    first: Option<F>,
    left: &mut L,
    form: Form,
    out: &mut Watched<W>,
) -> Status
    requires head { IsHead first (L.left left.old) }
    requires fresh { has_failed out.old ≡ false }
    ensures lists { ListsFires form F.text F.second (L.left left.old)
        (W.contents (writer_of out.old)) (W.contents (writer_of out.new)) result }
    ensures mark { has_failed out.new ≡ is_write_failure result }
    ensures calls { AreWritesFlushed W.writes W.flushes
        (writer_of out.old) (has_failed out.old) (writer_of out.new) (has_failed out.new) }
{
    let done = match first {
        Some(_) => Status::Done,
        None => Status::No,
    };
    send_rows(left, None, form, out);
    finish(out, done)
}

// The last time up to now when the clock shows a match. `None` if it isn't after the noted time.
fn latest_moment(
    table: &Union<'_>,
    noted: &Moment,
    now: Timestamp,
    zone: &TimeZone<'_>,
) -> Option<Moment>
    ensures { IsLatest (λ r. IsItem (any_of table.now.schedules.now) (plain_zone zone.now) r
        × (orders.is_earlier noted.now r ≡ true) × IsBy now.nanosecond r) result }
{
    let last = last_fire_by(table, now, zone)?;
    if is_earlier(noted, &last) {
        Some(last)
    } else {
        None
    }
}

// The last match that is due by now. `None` if it isn't after the noted match.
fn latest_due(
    table: &Union<'_>,
    noted: &DueFire,
    now: Timestamp,
    zone: &TimeZone<'_>,
) -> Option<DueFire>
    ensures { IsLast (λ d. IsDue (any_of table.now.schedules.now) (plain_zone zone.now) d
        × (is_past noted.now d ≡ true) × (is_due_by now.nanosecond d ≡ true)) result }
{
    let last = last_due_by(table, now, zone)?;
    if nominal_second(noted) < nominal_second(&last) {
        Some(last)
    } else {
        None
    }
}

// Lists the pending fires. Each time when the clock shows a match is a fire.
fn list_moments<W: Watchable>(
    table: &Union<'_>,
    pending: &Pending,
    now: Timestamp,
    zone: &TimeZone<'_>,
    form: Form,
    out: &mut Watched<W>,
) -> Status
    requires { has_failed out.old ≡ false }
    ensures lists { ListsPending AsShown form table.now.schedules.now (plain_zone zone.now)
        now.nanosecond pending.now
        (W.contents (writer_of out.old)) (W.contents (writer_of out.new)) result }
    ensures mark { has_failed out.new ≡ is_write_failure result }
    ensures calls { AreWritesFlushed W.writes W.flushes
        (writer_of out.old) (has_failed out.old) (writer_of out.new) (has_failed out.new) }
{
    match pending {
        Pending::Last => list_one(last_fire_by(table, now, zone), form, out),
        Pending::Past(fire) => {
            let noted = shown_of(fire);
            let first = Fires::past_by(table, &noted, now, zone).next();
            let mut run = Fires::past_by(table, &noted, now, zone);
            list_left(first, &mut run, form, out)
        }
        Pending::LatestPast(fire) => {
            let last = latest_moment(table, &shown_of(fire), now, zone);
            list_one(last, form, out)
        }
    }
}

// Lists the pending fires. Each match is a fire once, also where the clock changes.
fn list_dues<W: Watchable>(
    table: &Union<'_>,
    pending: &Pending,
    now: Timestamp,
    zone: &TimeZone<'_>,
    form: Form,
    out: &mut Watched<W>,
) -> Status
    requires { has_failed out.old ≡ false }
    ensures lists { ListsPending Once form table.now.schedules.now (plain_zone zone.now)
        now.nanosecond pending.now
        (W.contents (writer_of out.old)) (W.contents (writer_of out.new)) result }
    ensures mark { has_failed out.new ≡ is_write_failure result }
    ensures calls { AreWritesFlushed W.writes W.flushes
        (writer_of out.old) (has_failed out.old) (writer_of out.new) (has_failed out.new) }
{
    match pending {
        Pending::Last => list_one(last_due_by(table, now, zone), form, out),
        Pending::Past(fire) => {
            let first = Dues::past_by(table, fire, now, zone).next();
            let mut run = Dues::past_by(table, fire, now, zone);
            list_left(first, &mut run, form, out)
        }
        Pending::LatestPast(fire) => { list_one(latest_due(table, fire, now, zone), form, out) }
    }
}

/// Writes a row for each fire that is pending, in order, and flushes. The rule is `chosen`, or the
/// expression's own if that is `None`. The status is `No` if no fire is pending. No call of the
/// writer may have failed before.
pub fn list_pending<W: Watchable>(
    expression: &Expression,
    chosen: Option<ClockChanges>,
    pending: &Pending,
    now: Timestamp,
    zone: &TimeZone<'_>,
    form: Form,
    out: &mut Watched<W>,
) -> Status
    requires { has_failed out.old ≡ false }
    ensures lists { ListsPending (changes_by chosen expression.now) form
        (schedules_of expression.now) (plain_zone zone.now) now.nanosecond pending.now
        (W.contents (writer_of out.old)) (W.contents (writer_of out.new)) result }
    ensures mark { has_failed out.new ≡ is_write_failure result }
    ensures calls { AreWritesFlushed W.writes W.flushes
        (writer_of out.old) (has_failed out.old) (writer_of out.new) (has_failed out.new) }
{
    let table = Union {
        schedules: expression.as_slice(),
    };
    match expression.changes(chosen) {
        ClockChanges::AsShown => list_moments(&table, pending, now, zone, form, out),
        ClockChanges::Once => list_dues(&table, pending, now, zone, form, out),
    }
}
