//! Alarms on a clock with one offset, which go off at ascending instants.

ghost use Rattle.std.specs.Option.{option_map};
ghost use Rattle.std.specs.Prelude.{◌≡◌, pos, ◌*ℤ◌, MatchOption};
ghost use Rattle.cron.specs.Words.{instant};
ghost use Rattle.cron_callers.specs.Alarms.{IsAlarmAfter};

use cron::schedule::Moment;
use cron::{Schedule, laws};
use jiff::Timestamp;
use jiff::tz::{Offset, TimeZone};

/// The first two instants after `now` when an alarm goes off.
#[derive(Clone, Copy, Debug, PartialEq, Eq)]
pub struct Alarms {
    /// The first alarm after `now`, or `None` if there is none.
    pub first: Option<Timestamp>,
    /// The first alarm after `first`, or `None` if there is none.
    pub second: Option<Timestamp>,
}

// The instant of an item, or `None` if there is no item.
fn instant_of(moment: Option<Moment>) -> Option<Timestamp>
    ensures { option_map (λ t. t.nanosecond) result
        ≡ option_map (λ r. instant r *ℤ pos 1_000_000_000) moment }
{
    let moment = moment?;
    Some(moment.timestamp())
}

/// The first two alarms: the first instant after `now` when the clock shows a match, and the first
/// such instant after it. Each is `None` exactly if there is no such instant.
pub fn first_alarms(schedule: &Schedule, now: Timestamp, offset: Offset) -> Alarms
    ensures first { IsAlarmAfter schedule.now.sets offset.seconds now.nanosecond result.first }
    ensures second { MatchOption result.first (result.second ≡ None)
        (λ first. IsAlarmAfter schedule.now.sets offset.seconds first.nanosecond result.second) }
{
    let zone = TimeZone::fixed(offset);
    laws::one_offset();
    let (first, second) = laws::first_instants(schedule, now, &zone);
    Alarms {
        first: instant_of(first),
        second: instant_of(second),
    }
}
