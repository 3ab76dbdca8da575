//! The civil second where a walk from an instant begins its search.
ghost use Rattle.std.specs.Prelude.{◌≡◌};
ghost use Rattle.jiff.specs.Words.{plain_zone};
ghost use Rattle.cron_clocks.specs.Steady.{IsKnown};
ghost use Rattle.cron_time.specs.Walk.Bounds as spec;
ghost use Rattle.cron_time.specs.Walk.Ways as ways;

use cron_clocks::clock::shown_at;
use cron_clocks::stretch::Stretch;
use cron_units::way::Way;
use jiff::Timestamp;
use jiff::tz::TimeZone;

const SECOND: i128 = 1_000_000_000;

// The number of the civil second that a clock shows at the instant `nanosecond`, in nanoseconds
// since 1970-01-01T00:00:00Z. `None` if `jiff` has no such instant.
fn shown_if_any(nanosecond: i128, zone: &TimeZone<'_>, stretch: &mut Stretch) -> Option<i64>
    requires { IsKnown (plain_zone zone.now) stretch.old }
    ensures shown { result ≡ spec.shown_if_any (plain_zone zone.now) nanosecond }
    ensures known { IsKnown (plain_zone zone.now) stretch.new }
{
    match Timestamp::from_nanosecond(nanosecond) {
        Ok(instant) => Some(shown_at(zone, instant, stretch)),
        Err(_) => None,
    }
}

// Whether the instant has no part of a second. Offsets are whole seconds, so what a clock shows
// then has none either.
fn is_whole(instant: Timestamp, zone: &TimeZone<'_>) -> bool
    ensures { result ≡ spec.is_whole (plain_zone zone.now) instant.nanosecond }
{
    instant.as_nanosecond() == instant.to_plain().floor_second() as i128 * SECOND
}

/// Ahead, the number of the civil second that a clock shows one second after `start`. Back, the
/// number of the one that it shows at `start` if that has a part of a second, and else one second
/// before. `None` if there is no such instant. If a rule is looked up for this, `stretch` may be
/// set to the stretch around this civil second, so that it needn't be looked up again.
pub(crate) fn bound(
    way: Way,
    start: Timestamp,
    zone: &TimeZone<'_>,
    stretch: &mut Stretch,
) -> Option<i64>
    requires { IsKnown (plain_zone zone.now) stretch.old }
    ensures bound { result ≡ ways.bound way (plain_zone zone.now) start.nanosecond }
    ensures known { IsKnown (plain_zone zone.now) stretch.new }
{
    match way {
        Way::Ahead => shown_if_any(start.as_nanosecond() + SECOND, zone, stretch),
        Way::Back => {
            if is_whole(start, zone) {
                return shown_if_any(start.as_nanosecond() - SECOND, zone, stretch);
            }
            Some(shown_at(zone, start, stretch))
        }
    }
}
