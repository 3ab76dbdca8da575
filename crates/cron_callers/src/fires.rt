//! Fires of a schedule, by instants.

ghost use Rattle.std.specs.Prelude.{◌≡◌, IfOk};
ghost use Rattle.jiff.specs.Words.{plain_zone};
ghost use Rattle.cron_time.specs.Timeline.{seconds_of};
ghost use Rattle.cron_instants.specs.Fires.{fires_between};
ghost use Rattle.cron_instants.specs.Instants.{IsFirstAfter};

use cron::Schedule;
use cron::schedule::Moment;
use cron_fires::{first_fire_after, missed};
use jiff::Timestamp;
use jiff::tz::TimeZone;
use std::alloc::{AllocError, Global};

/// The first fire after `now`, also in a fold, or `None` if there is none. A loop that goes on from
/// the fire's instant loses no fire, except where two items share an instant. A loop that goes on
/// from the time when it woke loses what came due meanwhile.
pub fn next_fire(schedule: &Schedule, now: Timestamp, zone: &TimeZone<'_>) -> Option<Moment>
    ensures { IsFirstAfter (seconds_of schedule.now.sets) (plain_zone zone.now) now.nanosecond result }
{
    first_fire_after(schedule, now, zone)
}

/// The runs that were missed since the last run: the fires whose instant is after `last` and not
/// after `now`, in the order of their instants, also in a fold.
pub fn missed_runs(
    alloc: Global,
    schedule: &Schedule,
    last: Timestamp,
    now: Timestamp,
    zone: &TimeZone<'_>,
) -> Result<Vec<Moment>, AllocError>
    ensures { IfOk result (λ missed. missed.items
        ≡ fires_between (seconds_of schedule.now.sets) (plain_zone zone.now) last.nanosecond now.nanosecond) }
{
    missed(alloc, schedule, last, now, zone)
}
