//! Whether a fire was missed: no run came after it, and its grace is over.

ghost use Rattle.std.specs.Prelude.{◌≡◌, false};
ghost use Rattle.jiff.specs.Words.{plain_zone};
ghost use Rattle.cron_dues.specs.Due as dues;
ghost use Rattle.cron_moments.specs.Readings as moments;
ghost use Rattle.cron_instants.specs.Instants.{IsItem};
ghost use Rattle.cron_dues.specs.FirstDues.{IsDue};
ghost use Rattle.cron_writer.specs.Calls.{AreWritesFlushed};
ghost use Rattle.cron_writer.specs.Watching.{has_failed, writer_of};
ghost use Rattle.cron_plans.specs.Tables.{has_table};
ghost use Rattle.cron_answers.specs.Lateness.{IsFirstAfter, SaysWhetherBy};
ghost use Rattle.cron_replies.specs.Statuses.{is_write_failure};

use crate::missed::{missed_of, say};
use cron_dues::fire::DueFire;
use cron_fires::{ClockChanges, first_due_after, first_fire_after};
use cron_moments::moment::Moment;
use cron_plans::table::Table;
use cron_replies::form::Form;
use cron_replies::status::Status;
use cron_writer::watchable::Watchable;
use cron_writer::watched::Watched;
use jiff::Timestamp;
use jiff::tz::TimeZone;

/// When the last run was, and how long a fire's run may take to be noted, the grace.
#[derive(Clone, Copy)]
pub struct LastRun {
    /// The instant of the last run.
    pub instant: Timestamp,
    /// How many seconds after a fire its run may be noted.
    pub grace: u32,
}

// The first fire after `last`, by the rule that each time when the clock shows a match is a fire.
fn first_moment(table: &Table<'_>, last: Timestamp, zone: &TimeZone<'_>) -> Option<Moment>
    ensures { IsFirstAfter (IsItem (has_table table.now) (plain_zone zone.now))
        moments.instant (λ r. r.second) last.nanosecond result }
{
    first_fire_after(table, last, zone)
}

// The first fire after `last`, by the rule that each match is a fire once.
fn first_due(table: &Table<'_>, last: Timestamp, zone: &TimeZone<'_>) -> Option<DueFire>
    ensures { IsFirstAfter (IsDue (has_table table.now) (plain_zone zone.now))
        dues.instant (λ d. d.second) last.nanosecond result }
{
    first_due_after(table, last, zone)
}

/// Writes one sentence, or an object of JSON, on whether a fire was missed: it came after the last
/// run, and its grace is over. The rule is `changes`. The sentence names the first such fire, and
/// since when it is late. Of fires that share an instant, the first by civil second counts. No call
/// of the writer may have failed before.
pub fn say_whether<W: Watchable>(
    table: &Table<'_>,
    changes: ClockChanges,
    last: &LastRun,
    now: Timestamp,
    zone: &TimeZone<'_>,
    form: Form,
    out: &mut Watched<W>,
) -> Status
    requires { has_failed out.old ≡ false }
    ensures says { SaysWhetherBy changes form (has_table table.now) (plain_zone zone.now)
        last.now.instant.nanosecond last.now.grace now.nanosecond
        (W.contents (writer_of out.old)) (W.contents (writer_of out.new)) result }
    ensures mark { has_failed out.new ≡ is_write_failure result }
    ensures calls { AreWritesFlushed W.writes W.flushes
        (writer_of out.old) (has_failed out.old) (writer_of out.new) (has_failed out.new) }
{
    match changes {
        ClockChanges::AsShown => {
            let first = first_moment(table, last.instant, zone);
            say(&missed_of(first, last.grace, now), form, out)
        }
        ClockChanges::Once => {
            let first = first_due(table, last.instant, zone);
            say(&missed_of(first, last.grace, now), form, out)
        }
    }
}
