//! The readings of a civil second, looked up in a known stretch: civil seconds that the zone reads
//! at the same offsets.
ghost use Rattle.std.specs.Prelude.{◌≡◌, ◌<◌};
ghost use Rattle.jiff.specs.Words.{plain_zone};
ghost use Rattle.cron_moments.specs.Civil.{seconds_in_range};
ghost use Rattle.cron_moments.specs.Found.{items_if_any};
ghost use Rattle.cron_moments.specs.Readings.{readings};
ghost use Rattle.cron_clocks.specs.Steady.{IsKnown};

use cron_clocks::stretch::Stretch;
use cron_moments::readings::{Found, readings_of};
use jiff::tz::TimeZone;

/// The readings of `second`, from `stretch` if it lies there, or by the zone; `None` in a gap. In a
/// zone with a rule or a table a look-up by the zone sets `stretch` to the stretch around `second`.
#[inline(always)]
pub(crate) fn readings_within(
    zone: &TimeZone<'_>,
    second: u32,
    stretch: &mut Stretch,
) -> Option<Found>
    requires in_range { second < seconds_in_range }
    requires known { IsKnown (plain_zone zone.now) stretch.old }
    ensures readings { items_if_any result ≡ readings (plain_zone zone.now) second }
    ensures known { IsKnown (plain_zone zone.now) stretch.new }
{
    if stretch.has(second) {
        return stretch.readings(second);
    }
    match zone.to_plain() {
        jiff_tz::TimeZone::UTC | jiff_tz::TimeZone::Unknown | jiff_tz::TimeZone::Fixed(_) => {
            readings_of(zone, second)
        }
        _ => {
            *stretch = Stretch::at(zone, second);
            stretch.readings(second)
        }
    }
}
