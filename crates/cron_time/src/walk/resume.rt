//! The state of a walk that has returned a given item. The items of a timeline are the readings of
//! the civil seconds that match.
ghost use Rattle.std.specs.Prelude.{◌≡◌, ◌<◌, ℕ, Some, MatchOption, slice_get};
ghost use Rattle.jiff.specs.Words.{plain_zone};
ghost use Rattle.cron_moments.specs.Civil.{seconds_in_range};
ghost use Rattle.cron_moments.specs.Found.{found_items, items_if_any};
ghost use Rattle.cron_time.specs.Walk.Inner.Placed.{IsPlaced, Knows, cursor_of, reading_of, stand_of};
ghost use Rattle.cron_time.specs.Walk.Resume.{IsAbsent, IsAtItem};
ghost use Rattle.cron_time.specs.Search.{items_of};

use crate::matching;
use crate::search::reading::readings_within;
use crate::walk::state::State;
use cron_clocks::stretch::Stretch;
use cron_moments::civil::{SECONDS, civil_of};
use cron_moments::moment::{Moment, civil_second};
use cron_moments::readings::Found;
use cron_units::fields::ScheduleFields;
use jiff::tz::TimeZone;

// The items of a civil second, which are its readings. `None` if it doesn't match or lies in a gap.
fn items_at(fields: &ScheduleFields, zone: &TimeZone<'_>, second: u32) -> Option<Found>
    requires { second < seconds_in_range }
    ensures { items_if_any result ≡ items_of fields.now (plain_zone zone.now) second }
{
    if !matching::includes(fields, civil_of(second)) {
        return None;
    }
    readings_within(zone, second, &mut Stretch::empty())
}

// Returns false if `moment` is the first of the items, true if it is the later one, and `None` if
// it is neither.
fn is_later(found: &Found, moment: Moment) -> Option<bool>
    ensures { MatchOption result
        ((j : ℕ) → slice_get (found_items found.now) j ≡ Some moment → ⊥)
        (λ later. reading_of found.now later ≡ Some moment) }
{
    if found.first == moment {
        return Some(false);
    }
    let second = found.second?;
    if second == moment {
        return Some(true);
    }
    None
}

/// The state of a walk that has just returned `moment`. `None` if `moment` is no item of the
/// timeline.
pub fn resume(fields: &ScheduleFields, zone: &TimeZone<'_>, moment: &Moment) -> Option<State>
    ensures { MatchOption result
        (IsAbsent fields.now (plain_zone zone.now) moment.now)
        (λ state. IsPlaced fields.now (plain_zone zone.now) (stand_of state)
        × Knows fields.now (plain_zone zone.now) state
        × IsAtItem fields.now
        (plain_zone zone.now)
        moment.now
        (cursor_of fields.now (plain_zone zone.now) (stand_of state))) }
{
    let second = civil_second(moment);
    if second as i64 >= SECONDS {
        return None;
    }
    let Some(found) = items_at(fields, zone, second) else {
        return None;
    };
    let Some(later) = is_later(&found, *moment) else {
        return None;
    };
    Some(State::starting(moment.timestamp()).stand_at(found, later))
}
