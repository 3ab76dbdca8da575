//! A service that notes what it did last, is stopped, and goes on. A scheduler goes on by instants,
//! a calendar along the clock.

ghost use Rattle.std.specs.Prelude.{◌≡◌, ◌+◌, ℕ, None, Some, slice_get};
ghost use Rattle.jiff.specs.Words.{plain_zone};
ghost use Rattle.cron.specs.Words.{HasParts, Reading, civil, timeline};
ghost use Rattle.cron_time.specs.Timeline.{seconds_of};
ghost use Rattle.cron_instants.specs.Instants.{IsFirstPast};

use cron::schedule::Moment;
use cron::{Schedule, laws};
use cron_fires::first_fire_past;
use jiff::civil::DateTime;
use jiff::tz::{Offset, TimeZone};

/// What a service notes of a fire or an item.
#[derive(Clone, Copy, Debug, PartialEq, Eq)]
pub struct Noted {
    /// What the clock showed.
    pub shown: DateTime,
    /// How far the clock was ahead of UTC.
    pub offset: Offset,
}

/// The fire after `noted`, by instants. A scheduler that goes on like this loses no fire and runs
/// none twice, also in a fold. `None` if no fire follows, or if `noted` is no second of the years
/// 1970 to 2100. The schedule needn't fire at `noted`.
pub fn fire_after(schedule: &Schedule, noted: Noted, zone: &TimeZone<'_>) -> Option<Moment>
    ensures goes_on { (r : Reading)
        → HasParts noted.shown noted.offset r
        → IsFirstPast (seconds_of schedule.now.sets) (plain_zone zone.now) r result }
    ensures no_moment { ((r : Reading) → HasParts noted.shown noted.offset r → ⊥) → result ≡ None }
{
    let Some(fire) = Moment::from_parts(noted.shown, noted.offset) else {
        return None;
    };
    first_fire_past(schedule, &fire, zone)
}

/// The item after the item `noted` along the clock, for a calendar. In a fold its instant may be
/// before the noted instant, so a scheduler that went on like this would lose fires and run others
/// twice. `None` exactly after the last item, and if `noted` is no item of this schedule in this
/// zone.
pub fn item_after(schedule: &Schedule, noted: Noted, zone: &TimeZone<'_>) -> Option<Moment>
    ensures goes_on { (i : ℕ) (r : Reading)
        → slice_get (timeline schedule.now.sets (plain_zone zone.now)) i ≡ Some r
        → civil r.second ≡ noted.shown
        → r.offset ≡ noted.offset
        → result ≡ slice_get (timeline schedule.now.sets (plain_zone zone.now)) (i + 1) }
    ensures no_fire { ((i : ℕ) (r : Reading)
        → slice_get (timeline schedule.now.sets (plain_zone zone.now)) i ≡ Some r
        → civil r.second ≡ noted.shown
        → r.offset ≡ noted.offset
        → ⊥)
        → result ≡ None }
{
    laws::items_in_range();
    laws::single_items();
    let Some(last) = Moment::from_parts(noted.shown, noted.offset) else {
        return None;
    };
    let Some(mut walk) = schedule.resume(&last, zone) else {
        return None;
    };
    walk.next()
}
