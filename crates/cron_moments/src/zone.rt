//! The zone that a text names.

ghost use Rattle.std.specs.Prelude.{◌↔◌, IfSome, IsSome};
ghost use Rattle.jiff.specs.Words.{plain_zone};
ghost use Rattle.cron_moments.specs.Zones.{NamesZone, IsZoneOf};

use jiff::tz::TimeZone;

/// The zone that `text` names: `UTC`, or the zone of a POSIX rule text. `None` if it is neither.
pub fn zone_of(text: &str) -> Option<TimeZone<'_>>
    ensures succeeds { IsSome result ↔ NamesZone text.now }
    ensures value { IfSome result (λ zone. IsZoneOf text.now (plain_zone zone)) }
{
    if text == "UTC" {
        return Some(TimeZone::UTC);
    }
    TimeZone::posix(text).ok()
}
