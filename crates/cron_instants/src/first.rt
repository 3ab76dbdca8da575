//! The first item after an instant. An item is a reading of a civil second of the set. Where no
//! transition is near, a later time of the clock is a later instant, so the next match on the clock
//! is that item. Elsewhere the search goes by instants.
//!
//! A mark is a place in the order of items. What is known of a civil second is up to where civil
//! seconds after it are in the order of their instants.
ghost use Rattle.std.specs.Prelude.{◌≡◌, ◌≤◌, ◌<◌, pos, ◌-ℤ◌, IfSome};
ghost use Rattle.jiff.specs.Words.{plain_zone};
ghost use Rattle.cron_clocks.specs.Steady.{IsKnown};
ghost use Rattle.cron_moments.specs.Civil.{seconds_in_range};
ghost use Rattle.cron_units.specs.declared.way.Way.TheVariants.{Ahead};
ghost use Rattle.cron_instants.specs.Beyond.{IsBest, IsBeyond};
ghost use Rattle.cron_instants.specs.Monotone.{IsMonotone};

use crate::mark::Mark;
use crate::monotone::{Monotone, monotone_around, monotone_past};
use crate::nearest::{nearest_item, stretch_around};
use cron_clocks::stretch::Stretch;
use cron_moments::civil::SECONDS;
use cron_moments::moment::{Moment, moment_numbered};
use cron_seconds::civil_seconds::CivilSeconds;
use cron_units::way::Way;
use jiff::tz::TimeZone;

// What is known of `second`, if a clock shows it at the instant of `mark`. `None` if `second` is
// read at another instant, if it is greater than the civil second of `mark`, or if nothing is
// known.
fn known_at(zone: &TimeZone<'_>, mark: Mark, second: u32, stretch: &Stretch) -> Option<Monotone>
    requires low { stretch.now.first ≤ second }
    requires high { second < stretch.now.end }
    requires range { second < seconds_in_range }
    requires known { IsKnown (plain_zone zone.now) stretch.now }
    ensures monotone { IfSome result (λ monotone. IsMonotone (plain_zone zone.now) second monotone) }
    ensures instant { IfSome result (λ monotone. mark.instant ≡ pos second -ℤ monotone.offset.seconds) }
    ensures upto { IfSome result (λ monotone. second ≤ mark.second) }
{
    let monotone = monotone_around(zone, stretch, second)?;
    if i64::from(second) - i64::from(monotone.offset.seconds()) != mark.instant {
        return None;
    }
    if mark.second < second {
        return None;
    }
    Some(monotone)
}

// The first item beyond `mark`, or `None` if there is none. A clock shows `second` at the instant
// of `mark`, and `monotone` is what is known of `second`.
fn item_past<S: CivilSeconds>(
    set: &S,
    zone: &TimeZone<'_>,
    mark: Mark,
    second: u32,
    monotone: Monotone,
    stretch: &Stretch,
) -> Option<Moment>
    requires known { IsKnown (plain_zone zone.now) stretch.now }
    requires monotone { IsMonotone (plain_zone zone.now) second monotone }
    requires instant { mark.instant ≡ pos second -ℤ monotone.offset.seconds }
    requires upto { second ≤ mark.second }
    requires range { second < seconds_in_range }
    ensures { IsBest Ahead
        (IsBeyond Ahead (S.has set.now) (plain_zone zone.now) mark.instant mark.second)
        result }
{
    let next = set.nearest(Way::Ahead, i64::from(second) + 1)?;
    if next < monotone.end {
        return Some(moment_numbered(next, monotone.offset));
    }
    match monotone_past(zone, next) {
        Some(there) => Some(moment_numbered(next, there.offset)),
        None => nearest_item(set, zone, Way::Ahead, mark, stretch),
    }
}

/// The first item beyond `mark`, or `None` if there is none. A clock may show the civil second
/// `shown` at the instant of `mark`. `stretch` is known already: civil seconds that the zone reads
/// at the same offsets.
#[inline(always)]
pub(crate) fn first_item<S: CivilSeconds>(
    set: &S,
    zone: &TimeZone<'_>,
    mark: Mark,
    shown: i64,
    stretch: &Stretch,
) -> Option<Moment>
    requires { IsKnown (plain_zone zone.now) stretch.now }
    ensures { IsBest Ahead
        (IsBeyond Ahead (S.has set.now) (plain_zone zone.now) mark.instant mark.second)
        result }
{
    if shown < 0 || shown >= SECONDS {
        return nearest_item(set, zone, Way::Ahead, mark, stretch);
    }
    let second = shown as u32;
    let around = stretch_around(zone, stretch, second);
    match known_at(zone, mark, second, &around) {
        Some(monotone) => item_past(set, zone, mark, second, monotone, &around),
        None => nearest_item(set, zone, Way::Ahead, mark, &around),
    }
}
