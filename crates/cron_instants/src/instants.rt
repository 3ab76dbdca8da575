//! Fires of a set of civil seconds in a zone, by their instants. None of these calls takes memory.
ghost use Rattle.jiff.specs.Words.{plain_zone};
ghost use Rattle.cron_instants.specs.Instants.{IsFirstAfter, IsFirstPast, IsLastBefore, IsLastBy};

use crate::first::first_item;
use crate::mark::Mark;
use crate::nearest::nearest_item;
use crate::shown::first_shown;
use cron_clocks::clock::shown_at;
use cron_clocks::stretch::Stretch;
use cron_moments::moment::{Moment, civil_second};
use cron_seconds::civil_seconds::CivilSeconds;
use cron_units::way::Way;
use jiff::Timestamp;
use jiff::tz::TimeZone;

/// The earliest fire whose instant is after `now`, or `None` if there is none.
pub fn first_after<S: CivilSeconds>(set: &S, now: Timestamp, zone: &TimeZone<'_>) -> Option<Moment>
    ensures { IsFirstAfter (S.has set.now) (plain_zone zone.now) now.nanosecond result }
{
    let mark = Mark::behind(now);
    if let Some(first) = first_shown(set, zone, mark) {
        return first;
    }
    let mut stretch = Stretch::empty();
    let shown = shown_at(zone, now, &mut stretch);
    first_item(set, zone, mark, shown, &stretch)
}

/// The earliest fire later than `fire`, or `None` if there is none. `fire` itself needn't be a fire
/// of the timeline.
pub fn first_past<S: CivilSeconds>(set: &S, fire: &Moment, zone: &TimeZone<'_>) -> Option<Moment>
    ensures { IsFirstPast (S.has set.now) (plain_zone zone.now) fire.now result }
{
    let shown = i64::from(civil_second(fire));
    first_item(set, zone, Mark::of(fire), shown, &Stretch::empty())
}

/// The latest fire whose instant is at or before `now`, or `None` if there is none.
pub fn last_by<S: CivilSeconds>(set: &S, now: Timestamp, zone: &TimeZone<'_>) -> Option<Moment>
    ensures { IsLastBy (S.has set.now) (plain_zone zone.now) now.nanosecond result }
{
    nearest_item(set, zone, Way::Back, Mark::behind(now), &Stretch::empty())
}

/// The latest fire earlier than `fire`, or `None` if there is none. `fire` itself needn't be a fire
/// of the timeline.
pub fn last_before<S: CivilSeconds>(set: &S, fire: &Moment, zone: &TimeZone<'_>) -> Option<Moment>
    ensures { IsLastBefore (S.has set.now) (plain_zone zone.now) fire.now result }
{
    nearest_item(set, zone, Way::Back, Mark::of(fire), &Stretch::empty())
}
