//! Due fires of a set of civil seconds by a clock, such as a zone. None of these calls takes
//! memory.
ghost use Rattle.cron_time.specs.Seconds.{is_match};
ghost use Rattle.cron_dues.specs.Clock.FirstDues.{IsFirstDueAfter, IsFirstDuePast, IsLastDueBefore, IsLastDueBy};
ghost use Rattle.cron_dues.specs.Nearest.{IsNearestDue};

use crate::clock::Clock;
use crate::fire::{DueFire, nominal_second};
use crate::reach::{reach_by, reached_by};
use crate::way_to::{due_of, due_past};
use cron_seconds::civil_seconds::CivilSeconds;
use cron_units::way::Way;
use jiff::Timestamp;

/// The due fire of the nearest match from `from` on, in direction `way`. `None` if there is no such
/// match.
pub fn nearest_due<S: CivilSeconds, C: Clock>(
    set: &S,
    clock: &C,
    way: Way,
    from: i64,
) -> Option<DueFire>
    ensures { IsNearestDue way (is_match (S.has set.now)) (C.offsets clock.now) from result }
{
    let second = set.nearest(way, from)?;
    Some(due_of(clock, second))
}

/// The first due fire whose instant is after `now`, or `None` if there is none.
///
/// A loop goes on by `first_past` from the fire that it ran. Several fires may share an instant,
/// and this call returns only the first of them.
pub fn first_after<S: CivilSeconds, C: Clock>(set: &S, now: Timestamp, clock: &C) -> Option<DueFire>
    ensures { IsFirstDueAfter (S.has set.now) (C.offsets clock.now) now.nanosecond result }
{
    let reach = reach_by(clock, now);
    let Some(second) = set.nearest(Way::Ahead, reach.second + 1) else {
        return None;
    };
    Some(due_past(clock, second, reach.span).0)
}

/// The first due fire past `fire`, or `None` if there is none. `fire` needn't be a fire of the set:
/// only its nominal time counts.
pub fn first_past<S: CivilSeconds, C: Clock>(set: &S, fire: &DueFire, clock: &C) -> Option<DueFire>
    ensures { IsFirstDuePast (S.has set.now) (C.offsets clock.now) fire.now result }
{
    nearest_due(set, clock, Way::Ahead, i64::from(nominal_second(fire)) + 1)
}

/// The last due fire whose instant is at or before `now`, or `None` if there is none.
pub fn last_by<S: CivilSeconds, C: Clock>(set: &S, now: Timestamp, clock: &C) -> Option<DueFire>
    ensures { IsLastDueBy (S.has set.now) (C.offsets clock.now) now.nanosecond result }
{
    nearest_due(set, clock, Way::Back, reached_by(clock, now))
}

/// The last due fire before `fire`, or `None` if there is none. `fire` needn't be a fire of the
/// set: only its nominal time counts.
pub fn last_before<S: CivilSeconds, C: Clock>(set: &S, fire: &DueFire, clock: &C) -> Option<DueFire>
    ensures { IsLastDueBefore (S.has set.now) (C.offsets clock.now) fire.now result }
{
    nearest_due(set, clock, Way::Back, i64::from(nominal_second(fire)) - 1)
}
